//! What a snapshot keeps of each node, and of each directed link and wire: plain types. See docs/SNAPSHOTS.md.
#![tactic(auto)]

mod log;
mod node;
mod system;

pub use log::SnapLog;
pub use node::SnapNode;
pub use system::SnapSystem;
