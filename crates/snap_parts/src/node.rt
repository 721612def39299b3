//! `SnapNode`, what a snapshot keeps of a node.

use core_step::NodeState;

/// What a snapshot keeps of a node: how many of its events were kept, 0 to 262,144, how many more there were, below 2^63, and its state.
/// See docs/SNAPSHOTS.md.
#[derive(Drop)]
pub struct SnapNode {
    pub kept: u32,
    pub more: u64,
    pub state: NodeState,
}
