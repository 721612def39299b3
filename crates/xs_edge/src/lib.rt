//! The edge of the program: a source that a text is read from, a sink that one is written to, and a
//! gate that threads pass. Here are the three traits and sources and sinks over memory, over any reader
//! and writer of std, and ones that fail on purpose.
#![tactic(auto)]

ghost use Rattle.std.specs.Prelude.{◌≡◌, ◌<◌, ◌≤◌, ◌↔◌, ◌+◌, ◌-◌, ◌^◌, ℕ, min, List, [], Option, Result, length, take, IfOk, OnOk, OnErr, IfSome};
ghost use Rattle.std.specs.Io.KnownBytes.{Keeps, Consumes, Appends};
ghost use Rattle.xs_edge.specs.declared.Failed.{Failed};
ghost use Rattle.xs_edge.specs.Edge.{HasRisen, AppendsPart};

mod counted;
mod counting;
mod dripping;
mod failing;
mod lists;
mod once;
mod streams;

pub use counted::{Counted, read_makes_one_call};
pub use counting::CountingSource;
pub use dripping::{DripSink, DripSource};
pub use failing::{FailingSink, FailingSource};
pub use lists::{ListSink, ListSource};
pub use once::{OnceSink, OnceSource};
pub use streams::{
    FollowedRead, FollowedWrite, Plain, StdSink, StdSource, StreamSink, StreamSource,
};

/// A read or a write failed. It says no more: the count of faults of the source or the sink has risen.
#[derive(Clone, Copy, Debug, PartialEq, Eq)]
pub struct Failed;

/// Bytes that are read from front to back.
pub trait Source {
    /// The bytes not yet read, or `None` where the source doesn't tell them.
    ghost left: { Self → Option (List ℕ) };

    /// How often a read has failed, a number that never falls. At 2^64 - 1 it stays.
    ghost faults: { Self → ℕ };

    /// What one read into a buffer of so many bytes may answer and leave behind, for contracts that follow each read. By
    /// default anything.
    ghost read_gives: { Self → ℕ → Result ℕ Failed → Self → Type 0 } = { λ _ _ _ _. Unit {0} };

    /// Reads the next bytes to the front of `buf`, and tells how many, 0 to `buf.len()`. What stands
    /// in `buf` past them may be anything. With an empty `buf` it tells 0.
    ///
    /// Where `buf` isn't empty, 0 is the end of the input, also where the source doesn't tell what is left.
    ///
    /// `Failed` comes only where the count of faults has risen by one. Nothing was read then, and what stands in
    /// `buf` may be anything.
    fn read(&mut self, buf: &mut [u8]) -> Result<usize, Failed>
        ensures gives { read_gives self.old (length buf.new) result self.new }

        // The failure.
        ensures failed { OnErr result (HasRisen (faults self.old) (faults self.new)) }
        ensures failed_left { OnErr result (Keeps (left self.old) (left self.new)) }

        // The answer.
        ensures calm { OnOk result (faults self.new ≡ faults self.old) }
        ensures fits { IfOk result (λ n. n ≤ length buf.new) }
        ensures bytes { IfOk result (λ n. Consumes (left self.old) (left self.new) (take n buf.new)) }
        ensures end { IfOk result (λ n. 0 < length buf.new → IfSome (left self.old) (λ bytes. (n ≡ 0) ↔ (bytes ≡ []))) };
}

/// Takes the bytes of a text from front to back.
pub trait Sink {
    /// The bytes written so far, or `None` where the sink doesn't tell them.
    ghost written: { Self → Option (List ℕ) };

    /// How often a write has failed, a number that never falls. At 2^64 - 1 it stays.
    ghost faults: { Self → ℕ };

    /// What one write of a piece may answer and leave behind, for contracts that follow each write. By default anything.
    ghost put_gives: { Self → List ℕ → Result ℕ Failed → Self → Type 0 } = { λ _ _ _ _. Unit {0} };

    /// Writes a front of `piece`, and tells how many bytes of it: 1 to `piece.len()`, or 0 where `piece`
    /// is empty.
    ///
    /// `Failed` comes only where the count of faults has risen by one. Some front of `piece`, or nothing, was
    /// written then. A sink that would take no byte of a piece that isn't empty fails.
    fn put(&mut self, piece: &[u8]) -> Result<usize, Failed>
        ensures gives { put_gives self.old piece.now result self.new }

        // The failure.
        ensures failed { OnErr result (HasRisen (faults self.old) (faults self.new)) }
        ensures failed_part { OnErr result (AppendsPart (written self.old) (written self.new) piece.now) }

        // The answer.
        ensures calm { OnOk result (faults self.new ≡ faults self.old) }
        ensures fits { IfOk result (λ n. n ≤ length piece.now) }
        ensures some { IfOk result (λ n. 0 < length piece.now → 0 < n) }
        ensures bytes { IfOk result (λ n. Appends (written self.old) (written self.new) (take n piece.now)) };
}

/// Where each worker of a run passes before its work, so that a test can hold some back.
pub trait Gate: Sync {
    /// Returns when the worker of this number, counted from 0, may go on. It changes nothing that a
    /// contract sees.
    fn pass(&self, worker: u32);
}

/// A gate that lets each worker pass at once.
#[derive(Clone, Copy, Debug)]
pub struct OpenGate;

impl Gate for OpenGate {
    fn pass(&self, _worker: u32) {}
}

// The count after one more fault.
fn risen(faults: u64) -> u64
    ensures { HasRisen faults result }
{
    faults.saturating_add(1)
}
