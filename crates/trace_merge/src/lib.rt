//! The events of all nodes in one order: by slot, within a slot by node, and each node's in its own order. See
//! docs/OUTPUT.md.
#![tactic(auto)]

mod order;

pub use order::{Merged, merge};
