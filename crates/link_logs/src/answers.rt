//! What is answered where a log is read, and why a log is closed.
use xs_base::Batch;

/// Why a log was closed before the end of the run.
#[derive(Clone, Copy, PartialEq, Eq, Debug)]
pub enum Cause {
    /// Memory was wanting.
    Memory,
    /// A neighbour had closed the log of the directed link or wire with this number.
    Neighbour { link: u32 },
}

/// What a look at a log gives.
#[derive(Drop)]
pub enum Got {
    /// The entries from one slot, `from`, on and before another, `to`, in order.
    Entries { from: u32, to: u32, batch: Batch },
    /// Nothing is there that was not read, and the slot before which all is published.
    Nothing { published: u32 },
    /// The log is closed, and all of it was read.
    Closed,
}
