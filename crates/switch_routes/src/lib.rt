//! The switch of a node, and the row of its link ends. See docs/LINKS.md.
#![tactic(auto)]

mod able;
mod inputs;
mod links;
mod state;
mod steps;
mod switch;
mod wants;
mod ways;
mod work;

pub use link_ends::{EndState, LinkEnd};
pub use links::Links;
pub use state::InputState;
pub use switch::Switch;
pub use xs_base::Token;
