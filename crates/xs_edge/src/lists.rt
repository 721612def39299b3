// A source and a sink in memory.
ghost use Rattle.std.specs.Prelude.{◌≡◌, ◌<◌, ◌≤◌, ◌↔◌, ◌+◌, ℕ, min, List, [], ◌++◌, length, take, drop, IsOk, IsErr, IsTrue, IfOk, OnOk, OnErr, vec_len, vec_capacity, Some};
ghost use Rattle.xs_edge.specs.Edge.{HasRisen};

use crate::{Failed, Sink, Source, risen};
use std::alloc::{AllocError, Global};
use std::marker::Model;

/// A source in memory, which contracts see as the bytes not yet read. No read of it fails.
#[derive(Drop)]
pub struct ListSource {
    bytes: Vec<u8>,
    place: usize,
}

impl Model for ListSource {
    ghost Value = { List ℕ };

    ghost view = { λ source. drop source.place source.bytes.items };

    ghost invariant = { λ source. source.place ≤ vec_len source.bytes };
}

impl ListSource {
    /// A source of these bytes, from the first on.
    pub fn new(bytes: Vec<u8>) -> ListSource
        ensures { result ≡ bytes.items }
    {
        ListSource { bytes, place: 0 }
    }

    // Moves as many bytes as are left and fit, and tells how many.
    #[tactic(auto, using(crate::proofs::Moves::drop_split))]
    pub(crate) fn give(&mut self, buf: &mut [u8]) -> usize
        ensures count { result ≡ min (length buf.old) (length self.old) }
        ensures bytes { self.old ≡ take result buf.new ++ self.new }
    {
        let rest = &self.bytes[self.place..];
        let count = copy_front(buf, rest);
        self.place += count;
        count
    }
}

// Copies as many bytes as both hold from the front of one to the front of the other, and tells how many.
fn copy_front(to: &mut [u8], from: &[u8]) -> usize
    ensures count { result ≡ min (length to.old) (length from.now) }
    ensures copied { take result to.new ≡ take result from.now }
{
    let count = to.len().min(from.len());
    to[..count].copy_from_slice(&from[..count]);
    count
}

impl Source for ListSource {
    ghost left = { λ source. Some source };

    ghost faults = { λ _. 0 };

    /// Reads as many bytes as are left and fit in `buf`.
    fn read(&mut self, buf: &mut [u8]) -> Result<usize, Failed>
        ensures never_fails { IsOk result }
        ensures count { IfOk result (λ n. n ≡ min (length buf.new) (length self.old)) }
        ensures bytes { IfOk result (λ n. self.old ≡ take n buf.new ++ self.new) }
    {
        Ok(self.give(buf))
    }
}

/// A sink in memory, which takes all its memory when it is made. Contracts see it as a `Store`: the
/// bytes written, how many more fit, and how often a write has failed.
#[derive(Drop)]
pub struct ListSink {
    bytes: Vec<u8>,
    room: usize,
    faults: u64,
}

impl Model for ListSink {
    ghost use Rattle.std.specs.Prelude.{◌≤◌, ◌+◌, vec_len, vec_capacity};
    ghost use Rattle.xs_edge.specs.Stores.{Store};

    ghost Value = { Store };

    ghost view = { λ sink. record { written = sink.bytes.items; room = sink.room; faults = sink.faults } };

    ghost invariant = { λ sink. vec_len sink.bytes + sink.room ≤ vec_capacity sink.bytes };
}

impl ListSink {
    /// An empty sink with room for `n` bytes. `AllocError` comes where memory runs out.
    pub fn with_room(alloc: Global, n: usize) -> Result<ListSink, AllocError>
        ensures written { IfOk result (λ sink. sink.written ≡ []) }
        ensures room { IfOk result (λ sink. sink.room ≡ n) }
        ensures faults { IfOk result (λ sink. sink.faults ≡ 0) }
    {
        let bytes = Vec::with_capacity(alloc, n)?;
        Ok(ListSink {
            bytes,
            room: n,
            faults: 0,
        })
    }

    /// The bytes written.
    pub fn bytes(&self) -> &[u8]
        ensures { result.now ≡ self.now.written }
    {
        &self.bytes
    }

    // Whether no byte more fits.
    pub(crate) fn is_full(&self) -> bool
        ensures { IsTrue result ↔ (self.now.room ≡ 0) }
    {
        self.room == 0
    }

    // Appends as many bytes of the piece as fit, and tells how many.
    pub(crate) fn take(&mut self, piece: &[u8]) -> usize
        ensures count { result ≡ min (length piece.now) self.old.room }
        ensures written { self.new.written ≡ self.old.written ++ take result piece.now }
        ensures room { self.new.room + result ≡ self.old.room }
        ensures faults { self.new.faults ≡ self.old.faults }
    {
        let count = piece.len().min(self.room);
        append_within(&mut self.bytes, &piece[..count]);
        self.room -= count;
        count
    }

    // Counts a fault.
    pub(crate) fn fail(&mut self)
        ensures written { self.new.written ≡ self.old.written }
        ensures room { self.new.room ≡ self.old.room }
        ensures faults { HasRisen self.old.faults self.new.faults }
    {
        self.faults = risen(self.faults);
    }
}

// Appends to bytes whose memory has room for the piece.
fn append_within(bytes: &mut Vec<u8>, piece: &[u8])
    requires { vec_len bytes.old + length piece.now ≤ vec_capacity bytes.old }
    ensures items { bytes.new.items ≡ bytes.old.items ++ piece.now }
    ensures capacity { vec_capacity bytes.old ≤ vec_capacity bytes.new }
{
    bytes.extend_from_slice(piece).unwrap();
}

impl Sink for ListSink {
    ghost written = { λ sink. Some sink.written };

    ghost faults = { λ sink. sink.faults };

    /// Writes as many bytes as fit. `Failed` comes exactly where `piece` isn't empty and no byte fits;
    /// nothing is written then.
    fn put(&mut self, piece: &[u8]) -> Result<usize, Failed>
        ensures full { IsErr result ↔ ((0 < length piece.now) × (self.old.room ≡ 0)) }
        ensures failed { OnErr result (HasRisen self.old.faults self.new.faults) }
        ensures failed_written { OnErr result (self.new.written ≡ self.old.written) }
        ensures failed_room { OnErr result (self.new.room ≡ self.old.room) }
        ensures calm { OnOk result (self.new.faults ≡ self.old.faults) }
        ensures count { IfOk result (λ n. n ≡ min (length piece.now) self.old.room) }
        ensures written { IfOk result (λ n. self.new.written ≡ self.old.written ++ take n piece.now) }
        ensures room { IfOk result (λ n. self.new.room + n ≡ self.old.room) }
    {
        if self.is_full() && !piece.is_empty() {
            self.fail();
            return Err(Failed);
        }
        Ok(self.take(piece))
    }
}
