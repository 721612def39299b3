// A source and a sink in memory that move a byte at a time.
ghost use Rattle.std.specs.Prelude.{◌≡◌, ◌<◌, ◌≤◌, ◌↔◌, ◌+◌, ℕ, min, List, [], ◌++◌, length, take, IsOk, IsErr, IfOk, OnOk, OnErr, Some};
ghost use Rattle.xs_edge.specs.Edge.{HasRisen};

use crate::{Failed, ListSink, ListSource, Sink, Source};
use std::alloc::{AllocError, Global};
use std::marker::Model;

/// A source in memory that gives one byte at a read. Contracts see it as the bytes not yet read. No read of it fails.
#[derive(Drop)]
pub struct DripSource {
    list: ListSource,
}

impl Model for DripSource {
    ghost Value = { List ℕ };

    ghost view = { λ source. source.list };
}

impl DripSource {
    /// A source of these bytes, from the first on.
    pub fn new(bytes: Vec<u8>) -> DripSource
        ensures { result ≡ bytes.items }
    {
        DripSource {
            list: ListSource::new(bytes),
        }
    }
}

impl Source for DripSource {
    ghost left = { λ source. Some source };

    ghost faults = { λ _. 0 };

    /// Reads one byte, where one is left and `buf` isn't empty.
    fn read(&mut self, buf: &mut [u8]) -> Result<usize, Failed>
        ensures never_fails { IsOk result }
        ensures count { IfOk result (λ n. n ≡ min (min (length buf.new) 1) (length self.old)) }
        ensures bytes { IfOk result (λ n. self.old ≡ take n buf.new ++ self.new) }
    {
        let most = buf.len().min(1);
        Ok(self.list.give(&mut buf[..most]))
    }
}

/// A sink in memory that takes one byte at a write, and takes all its memory when it is made. Contracts see it as a `Store`, as they
/// see a `ListSink`.
#[derive(Drop)]
pub struct DripSink {
    list: ListSink,
}

impl Model for DripSink {
    ghost use Rattle.xs_edge.specs.Stores.{Store};

    ghost Value = { Store };

    ghost view = { λ sink. sink.list };
}

impl DripSink {
    /// An empty sink with room for `n` bytes. `AllocError` comes where memory runs out.
    pub fn with_room(alloc: Global, n: usize) -> Result<DripSink, AllocError>
        ensures written { IfOk result (λ sink. sink.written ≡ []) }
        ensures room { IfOk result (λ sink. sink.room ≡ n) }
        ensures faults { IfOk result (λ sink. sink.faults ≡ 0) }
    {
        Ok(DripSink {
            list: ListSink::with_room(alloc, n)?,
        })
    }

    /// The bytes written.
    pub fn bytes(&self) -> &[u8]
        ensures { result.now ≡ self.now.written }
    {
        self.list.bytes()
    }
}

impl Sink for DripSink {
    ghost written = { λ sink. Some sink.written };

    ghost faults = { λ sink. sink.faults };

    /// Writes one byte, where `piece` isn't empty. `Failed` comes exactly where it isn't and no byte fits; nothing is written then.
    fn put(&mut self, piece: &[u8]) -> Result<usize, Failed>
        ensures full { IsErr result ↔ ((0 < length piece.now) × (self.old.room ≡ 0)) }
        ensures failed { OnErr result (HasRisen self.old.faults self.new.faults) }
        ensures failed_written { OnErr result (self.new.written ≡ self.old.written) }
        ensures failed_room { OnErr result (self.new.room ≡ self.old.room) }
        ensures calm { OnOk result (self.new.faults ≡ self.old.faults) }
        ensures count { IfOk result (λ n. n ≡ min (min (length piece.now) 1) self.old.room) }
        ensures written { IfOk result (λ n. self.new.written ≡ self.old.written ++ take n piece.now) }
        ensures room { IfOk result (λ n. self.new.room + n ≡ self.old.room) }
    {
        if self.list.is_full() && !piece.is_empty() {
            self.list.fail();
            return Err(Failed);
        }
        let most = piece.len().min(1);
        Ok(self.list.take(&piece[..most]))
    }
}
