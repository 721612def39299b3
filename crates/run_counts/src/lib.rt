//! What is counted in a run: of each thread, of each instruction, and of each link end. See docs/LOOK.md.
#![tactic(auto)]

mod counting;
mod links;
mod nodes;
mod places;
mod run;

pub use links::LinkCounts;
pub use nodes::NodeCounts;
pub use places::PlaceCounts;
pub use run::count_run;
