//! Snapshots of runs: what a run of a system has come to before a slot, and the rest of a run that goes on from there. See
//! docs/SNAPSHOTS.md.
#![tactic(auto)]

mod counts;
mod ended;
mod keeping;
mod room;
mod run_on;
mod savable;
mod save;
mod saved_logs;
mod saved_nodes;
mod snap_plan;
mod went_on;

pub use run_on::rest_of;
pub use save::save_at;
