//! How what a snapshot keeps of a node stands in bytes, and its reader and writer. See docs/SNAPSHOTS.md.
#![tactic(auto)]

mod laws;
mod node;
mod places;

pub use laws::{nodes_are_lawful, nodes_have_facts};
pub use node::{read_node, write_node};
