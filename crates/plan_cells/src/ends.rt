//! The ends of cells that a node holds. See docs/LOOKAHEAD.md.
use log_cells::{ReadEnd, WriteEnd};
use plan_stories::PlanStory;
use xs_base::Batch;

/// What a node has read of a link or wire that comes to it, and was not handed: the entries from the slot up to which it was handed all, on
/// and before the slot `to`.
#[derive(Drop)]
pub struct Hand {
    pub batch: Batch,
    pub to: u32,
}

/// The end by which a node writes to the cell of an arc that leaves it: by which end of the node it leaves, 0 to 39: link ends, then ends of
/// wires; and the number of the arc.
#[derive(Drop)]
pub struct Outgoing {
    pub end: u8,
    pub link: u32,
    pub w: WriteEnd<PlanStory>,
}

/// The end by which a node reads the cell of an arc that comes to it: to which end of the node it comes, 0 to 39: link ends, then ends of
/// wires; the number of the arc, what was read and is still in hand, and whether the cell was in use by its other end when it was last to be
/// looked at.
#[derive(Drop)]
pub struct Incoming {
    pub end: u8,
    pub link: u32,
    pub r: ReadEnd<PlanStory>,
    pub hand: Option<Hand>,
    pub busy: bool,
}

/// The ends that a node holds, one for each arc that leaves it and one for each that comes to it, by number.
#[derive(Drop)]
pub struct Ends {
    pub outgoing: Vec<Outgoing>,
    pub incoming: Vec<Incoming>,
}
