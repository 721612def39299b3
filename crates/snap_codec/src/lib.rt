//! Snapshots as bytes: what a run of a system has come to, written and read. See docs/SNAPSHOTS.md.
#![tactic(auto)]

mod body;
mod head;
mod laws;
mod logs;
mod nodes;
mod snap;
mod snap_kind;

pub use laws::snaps_are_lawful;
pub use snap::{LONGEST_SNAPSHOT, Snap, read_snap, write_snap};
pub use snap_kind::{SnapError, SnapKind};
