//! Answers of the program that were worked out by hand, which the definitions give. Nothing stands on this crate.
#![tactic(auto)]

mod answers;
mod edges;
mod modes;
mod pairs;
mod pins;
mod plays;
mod programs;
mod routes;
mod snapshots;
mod statuses;
mod waves;

pub use answers::worked_answers;
pub use edges::worked_edges;
pub use modes::worked_modes;
pub use pairs::worked_pairs;
pub use pins::worked_pins;
pub use plays::worked_plays;
pub use programs::worked_programs;
pub use routes::worked_routes;
pub use snapshots::worked_snapshots;
pub use statuses::worked_statuses;
pub use waves::worked_waves;
