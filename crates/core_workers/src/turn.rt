//! `Turn`, what came of a worker's turn.

/// What came of a worker's turn. See docs/LOOKAHEAD.md.
#[derive(Clone, Copy, PartialEq, Eq, Debug)]
pub enum Turn {
    /// The node has run the slots from one on and before another, and `Finished` does not fit: it is not at the limit, or what it has sent is not
    /// all published.
    Ran { from: u32, to: u32 },
    /// The node has run no slot, and no log was found closed. The link or wire that comes to an end, 0 to 39: link ends, then ends of wires,
    /// stops it: this much of it was seen, in slots, and the turn has looked at its log. It is the least such end.
    Blocked { end: u8, seen: u32 },
    /// The node has run no slot, and none of the others fits: no link or wire that stops it could be looked at, or it is at the limit and one
    /// that leaves it could not be published. This is the least end, 0 to 39, at which a look or a publish found the cell in use by its other
    /// end. A later turn tries again.
    Busy { end: u8 },
    /// The node has run all slots of the run, and all that it sends is published.
    Finished,
    /// The node has run no slot, and is not at the limit, and the log of this arc that comes to it was found closed. It is the least such arc.
    Stopped { link: u32 },
    /// Memory was wanting. What was done of the turn stands.
    Memory,
}
