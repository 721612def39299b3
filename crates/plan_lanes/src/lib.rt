//! The nodes of a plan with the logs of its arcs, where one caller has them all: what they are by how far each node has run, and how much of
//! each arc was published and seen. See docs/LOOKAHEAD.md.
#![tactic(auto)]

mod fresh;
mod lane;

pub use fresh::{lanes_of, runners_of};
pub use lane::Lane;
