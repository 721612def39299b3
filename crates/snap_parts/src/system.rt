//! `SnapSystem`, what a snapshot keeps of a system.

use crate::log::SnapLog;
use crate::node::SnapNode;

/// What a snapshot keeps of a system before a slot: of its nodes, by position, and of its directed links and wires, by number. See
/// docs/SNAPSHOTS.md.
#[derive(Drop)]
pub struct SnapSystem {
    pub slot: u32,
    pub nodes: Vec<SnapNode>,
    pub logs: Vec<SnapLog>,
}
