//! Events as they come out of a node, before any text is made of them: what one slot of a node gives, with the tokens and credits
//! that leave it, and the events that are kept of a run. See docs/MACHINE.md.
#![tactic(auto)]

mod emitted;
mod kept;

pub use emitted::Emissions;
pub use kept::NodeEvents;
pub use xs_model::{Event, Happen};
