//! The workers of all nodes of a plan, each in a thread of its own where one can be started. See docs/LOOKAHEAD.md.
#![tactic(auto)]

mod fresh;
mod here;
mod node;
mod place;
mod starts;
mod team;

pub use starts::{EachNode, Starts};
pub use team::{run_workers, run_workers_where};
