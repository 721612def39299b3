// A source and a sink in memory of which one call fails on purpose, and those after it go on.
ghost use Rattle.std.specs.Prelude.{◌≡◌, ◌<◌, ◌≤◌, ◌↔◌, ◌⊎◌, ◌+◌, ◌-◌, ◌^◌, ℕ, min, List, [], ◌++◌, length, take, IsErr, IfOk, OnOk, OnErr, Some};
ghost use Rattle.xs_edge.specs.Edge.{HasRisen};

use crate::{Failed, ListSink, ListSource, Sink, Source, risen};
use std::alloc::{AllocError, Global};
use std::marker::Model;

/// A source in memory of which one read fails, by its number from 0 on; those after it go on. Contracts see it as a `FailsOnce`: the bytes
/// not yet read, the number of the read that fails, how often it was read, which stays at 2^64 - 1, and how often a read has failed.
#[derive(Drop)]
pub struct OnceSource {
    list: ListSource,
    at: u32,
    reads: u64,
    faults: u64,
}

impl Model for OnceSource {
    ghost use Rattle.xs_edge.specs.Stores.{FailsOnce};

    ghost Value = { FailsOnce };

    ghost view = { λ source. record { left = source.list; at = source.at; reads = source.reads; faults = source.faults } };
}

impl OnceSource {
    /// A source of these bytes, of which the read with the number `at` fails, counted from 0.
    pub fn new(bytes: Vec<u8>, at: u32) -> OnceSource
        ensures left { result.left ≡ bytes.items }
        ensures at { result.at ≡ at }
        ensures reads { result.reads ≡ 0 }
        ensures faults { result.faults ≡ 0 }
    {
        OnceSource {
            list: ListSource::new(bytes),
            at,
            reads: 0,
            faults: 0,
        }
    }

    /// How often it was read, the read that failed among them, up to 2^32 - 1.
    pub fn reads(&self) -> u32
        ensures { result ≡ min self.now.reads (2 ^ 32 - 1) }
    {
        up_to_most(self.reads)
    }
}

impl Source for OnceSource {
    ghost left = { λ source. Some source.left };

    ghost faults = { λ source. source.faults };

    /// Reads as many bytes as are left and fit in `buf`. `Failed` comes exactly at the read with the number that fails, at an empty `buf` too.
    fn read(&mut self, buf: &mut [u8]) -> Result<usize, Failed>
        ensures once { IsErr result ↔ (self.old.reads ≡ self.old.at) }
        ensures at { self.new.at ≡ self.old.at }
        ensures reads { HasRisen self.old.reads self.new.reads }
        ensures failed { OnErr result (HasRisen self.old.faults self.new.faults) }
        ensures failed_left { OnErr result (self.new.left ≡ self.old.left) }
        ensures calm { OnOk result (self.new.faults ≡ self.old.faults) }
        ensures count { IfOk result (λ n. n ≡ min (length buf.new) (length self.old.left)) }
        ensures bytes { IfOk result (λ n. self.old.left ≡ take n buf.new ++ self.new.left) }
    {
        let number = self.reads;
        self.reads = risen(number);
        if number == u64::from(self.at) {
            self.faults = risen(self.faults);
            return Err(Failed);
        }
        Ok(self.list.give(buf))
    }
}

/// A sink in memory of which one write fails, by its number from 0 on; those after it go on, while there is room. It takes all its memory
/// when it is made. Contracts see it as a `StoresButOnce`: what they see of a `ListSink`, the number of the write that fails, and how often
/// it was written to, which stays at 2^64 - 1.
#[derive(Drop)]
pub struct OnceSink {
    list: ListSink,
    at: u32,
    puts: u64,
}

impl Model for OnceSink {
    ghost use Rattle.xs_edge.specs.Stores.{StoresButOnce};

    ghost Value = { StoresButOnce };

    ghost view = { λ sink. record { store = sink.list; at = sink.at; puts = sink.puts } };
}

impl OnceSink {
    /// An empty sink with room for `n` bytes, of which the write with the number `at` fails, counted from 0. `AllocError` comes where memory
    /// runs out.
    pub fn with_room(alloc: Global, n: usize, at: u32) -> Result<OnceSink, AllocError>
        ensures written { IfOk result (λ sink. sink.store.written ≡ []) }
        ensures room { IfOk result (λ sink. sink.store.room ≡ n) }
        ensures faults { IfOk result (λ sink. sink.store.faults ≡ 0) }
        ensures at { IfOk result (λ sink. sink.at ≡ at) }
        ensures puts { IfOk result (λ sink. sink.puts ≡ 0) }
    {
        Ok(OnceSink {
            list: ListSink::with_room(alloc, n)?,
            at,
            puts: 0,
        })
    }

    /// The bytes written.
    pub fn bytes(&self) -> &[u8]
        ensures { result.now ≡ self.now.store.written }
    {
        self.list.bytes()
    }

    /// How often it was written to, the write that failed among them, up to 2^32 - 1.
    pub fn puts(&self) -> u32
        ensures { result ≡ min self.now.puts (2 ^ 32 - 1) }
    {
        up_to_most(self.puts)
    }
}

impl Sink for OnceSink {
    ghost written = { λ sink. Some sink.store.written };

    ghost faults = { λ sink. sink.store.faults };

    /// Writes as many bytes as fit. `Failed` comes exactly at the write with the number that fails, at an empty `piece` too, and where `piece`
    /// isn't empty and no byte fits; nothing is written then.
    fn put(&mut self, piece: &[u8]) -> Result<usize, Failed>
        ensures once { IsErr result ↔ ((self.old.puts ≡ self.old.at) ⊎ ((0 < length piece.now) × (self.old.store.room ≡ 0))) }
        ensures at { self.new.at ≡ self.old.at }
        ensures puts { HasRisen self.old.puts self.new.puts }
        ensures failed { OnErr result (HasRisen self.old.store.faults self.new.store.faults) }
        ensures failed_written { OnErr result (self.new.store.written ≡ self.old.store.written) }
        ensures failed_room { OnErr result (self.new.store.room ≡ self.old.store.room) }
        ensures calm { OnOk result (self.new.store.faults ≡ self.old.store.faults) }
        ensures count { IfOk result (λ n. n ≡ min (length piece.now) self.old.store.room) }
        ensures written { IfOk result (λ n. self.new.store.written ≡ self.old.store.written ++ take n piece.now) }
        ensures room { IfOk result (λ n. self.new.store.room + n ≡ self.old.store.room) }
    {
        let number = self.puts;
        self.puts = risen(number);
        let is_full = self.list.is_full() && !piece.is_empty();
        if number == u64::from(self.at) || is_full {
            self.list.fail();
            return Err(Failed);
        }
        Ok(self.list.take(piece))
    }
}

// A count, up to the greatest that a `u32` holds.
fn up_to_most(count: u64) -> u32
    ensures { result ≡ min count (2 ^ 32 - 1) }
{
    count.min(u64::from(u32::MAX)) as u32
}
