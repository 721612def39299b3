//! The cells of a plan's arcs, one for each, and the ends of these cells by node. See docs/LOOKAHEAD.md.
#![tactic(auto)]

mod cells;
mod deal;
mod ends;
mod gather;
mod keeps;

pub use cells::PlanCells;
pub use ends::{Ends, Hand, Incoming, Outgoing};
pub use keeps::log_is_history;
