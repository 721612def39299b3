// A source and a sink that fail on purpose, after a number of bytes.
ghost use Rattle.std.specs.Prelude.{◌≡◌, ◌<◌, ◌≤◌, ◌↔◌, ◌+◌, ℕ, min, List, [], ◌++◌, length, take, IsErr, IfOk, OnOk, OnErr, Some};
ghost use Rattle.xs_edge.specs.Edge.{HasRisen};

use crate::{Failed, ListSink, ListSource, Sink, Source, risen};
use std::alloc::{AllocError, Global};
use std::marker::Model;

/// A source in memory that fails each read once it has given a number of bytes. Contracts see it as a
/// `Breaking`: the bytes not yet read, how many it still gives, and how often a read has failed.
#[derive(Drop)]
pub struct FailingSource {
    list: ListSource,
    allowed: usize,
    faults: u64,
}

impl Model for FailingSource {
    ghost use Rattle.xs_edge.specs.Stores.{Breaking};

    ghost Value = { Breaking };

    ghost view = { λ source. record { left = source.list; allowed = source.allowed; faults = source.faults } };
}

impl FailingSource {
    /// A source of these bytes, which fails each read once `after` bytes were read.
    pub fn new(bytes: Vec<u8>, after: usize) -> FailingSource
        ensures left { result.left ≡ bytes.items }
        ensures allowed { result.allowed ≡ after }
        ensures faults { result.faults ≡ 0 }
    {
        FailingSource {
            list: ListSource::new(bytes),
            allowed: after,
            faults: 0,
        }
    }
}

impl Source for FailingSource {
    ghost left = { λ source. Some source.left };

    ghost faults = { λ source. source.faults };

    /// Reads as many bytes as are left, are still given and fit in `buf`. `Failed` comes exactly where
    /// no more are given, at an empty `buf` too.
    fn read(&mut self, buf: &mut [u8]) -> Result<usize, Failed>
        ensures broken { IsErr result ↔ (self.old.allowed ≡ 0) }
        ensures failed { OnErr result (HasRisen self.old.faults self.new.faults) }
        ensures failed_left { OnErr result (self.new.left ≡ self.old.left) }
        ensures failed_allowed { OnErr result (self.new.allowed ≡ self.old.allowed) }
        ensures calm { OnOk result (self.new.faults ≡ self.old.faults) }
        ensures count { IfOk result (λ n. n ≡ min (min (length buf.new) self.old.allowed) (length self.old.left)) }
        ensures bytes { IfOk result (λ n. self.old.left ≡ take n buf.new ++ self.new.left) }
        ensures allowed { IfOk result (λ n. self.new.allowed + n ≡ self.old.allowed) }
    {
        if self.allowed == 0 {
            self.faults = risen(self.faults);
            return Err(Failed);
        }
        let most = buf.len().min(self.allowed);
        let count = self.list.give(&mut buf[..most]);
        self.allowed -= count;
        Ok(count)
    }
}

/// A sink in memory that takes a number of bytes and then fails each write. Contracts see it as a
/// `Store`, as they see a `ListSink`.
#[derive(Drop)]
pub struct FailingSink {
    list: ListSink,
}

impl Model for FailingSink {
    ghost use Rattle.xs_edge.specs.Stores.{Store};

    ghost Value = { Store };

    ghost view = { λ sink. sink.list };
}

impl FailingSink {
    /// An empty sink that takes `after` bytes before it fails. `AllocError` comes where memory runs out.
    pub fn new(alloc: Global, after: usize) -> Result<FailingSink, AllocError>
        ensures written { IfOk result (λ sink. sink.written ≡ []) }
        ensures room { IfOk result (λ sink. sink.room ≡ after) }
        ensures faults { IfOk result (λ sink. sink.faults ≡ 0) }
    {
        Ok(FailingSink {
            list: ListSink::with_room(alloc, after)?,
        })
    }

    /// The bytes written.
    pub fn bytes(&self) -> &[u8]
        ensures { result.now ≡ self.now.written }
    {
        self.list.bytes()
    }
}

impl Sink for FailingSink {
    ghost written = { λ sink. Some sink.written };

    ghost faults = { λ sink. sink.faults };

    /// Writes as many bytes as fit. `Failed` comes exactly where none fits, at an empty `piece` too;
    /// nothing is written then.
    fn put(&mut self, piece: &[u8]) -> Result<usize, Failed>
        ensures full { IsErr result ↔ (self.old.room ≡ 0) }
        ensures failed { OnErr result (HasRisen self.old.faults self.new.faults) }
        ensures failed_written { OnErr result (self.new.written ≡ self.old.written) }
        ensures failed_room { OnErr result (self.new.room ≡ self.old.room) }
        ensures calm { OnOk result (self.new.faults ≡ self.old.faults) }
        ensures count { IfOk result (λ n. n ≡ min (length piece.now) self.old.room) }
        ensures written { IfOk result (λ n. self.new.written ≡ self.old.written ++ take n piece.now) }
        ensures room { IfOk result (λ n. self.new.room + n ≡ self.old.room) }
    {
        if self.list.is_full() {
            self.list.fail();
            return Err(Failed);
        }
        Ok(self.list.take(piece))
    }
}
