//! `SnapLog`, what a snapshot keeps of a directed link or a wire.

use xs_base::Batch;

/// What a snapshot keeps of a directed link or a wire. See docs/SNAPSHOTS.md.
#[derive(Drop)]
pub struct SnapLog {
    /// What was sent in the slots from a delay before the snapshot's on, in order: it has not arrived yet.
    pub entries: Batch,
    /// How many tokens, or levels of a wire, and how many credits were sent since slot 0: each is below 2^63.
    pub totals: (u64, u64),
    /// The level that a wire shows at its second end in the slot before the snapshot's; 0 for a link.
    pub level: u32,
}
