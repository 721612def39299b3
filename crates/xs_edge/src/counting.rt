// A source in memory that counts how often it is read.
ghost use Rattle.std.specs.Prelude.{◌≡◌, ◌≤◌, ◌↔◌, ◌+◌, ℕ, min, List, [], ◌++◌, length, take, IsOk, IfOk, Some};
ghost use Rattle.xs_edge.specs.Edge.{HasRisen};

use crate::{Failed, ListSource, Source, risen};
use std::marker::Model;

/// A source in memory that counts its reads, so that it can be said how often it is read. No read of it fails. Contracts
/// see it as a `Counting`: the bytes not yet read, and how often it was read. At 2^64 - 1 the count stays.
#[derive(Drop)]
pub struct CountingSource {
    list: ListSource,
    reads: u64,
}

impl Model for CountingSource {
    ghost use Rattle.xs_edge.specs.Stores.{Counting};

    ghost Value = { Counting };

    ghost view = { λ source. record { left = source.list; reads = source.reads } };
}

impl CountingSource {
    /// A source of these bytes, from the first on, that was not read yet.
    pub fn new(bytes: Vec<u8>) -> CountingSource
        ensures left { result.left ≡ bytes.items }
        ensures reads { result.reads ≡ 0 }
    {
        CountingSource {
            list: ListSource::new(bytes),
            reads: 0,
        }
    }

    /// How often it was read.
    pub fn reads(&self) -> u64
        ensures { result ≡ self.now.reads }
    {
        self.reads
    }
}

impl Source for CountingSource {
    ghost left = { λ source. Some source.left };

    ghost faults = { λ _. 0 };

    ghost read_gives = { λ old _ _ new. HasRisen old.reads new.reads };

    /// Reads as many bytes as are left and fit in `buf`.
    fn read(&mut self, buf: &mut [u8]) -> Result<usize, Failed>
        ensures never_fails { IsOk result }
        ensures reads { HasRisen self.old.reads self.new.reads }
        ensures count { IfOk result (λ n. n ≡ min (length buf.new) (length self.old.left)) }
        ensures bytes { IfOk result (λ n. self.old.left ≡ take n buf.new ++ self.new.left) }
    {
        self.reads = risen(self.reads);
        Ok(self.list.give(buf))
    }
}
