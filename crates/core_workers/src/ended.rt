//! `Ended`, what came of a worker's run.

/// What came of a worker's run. See docs/LOOKAHEAD.md.
#[derive(Clone, Copy, PartialEq, Eq, Debug)]
pub enum Ended {
    /// The node has run all slots of the run, and all that it sends is published.
    Finished,
    /// The log of a link or wire that comes to the node was found closed, and a turn ran no slot: the logs of the links and wires that leave it
    /// are closed, with that link or wire as their cause.
    Stopped,
    /// Memory was wanting. The logs of the links and wires that leave the node are closed, with that as their cause.
    Memory,
}
