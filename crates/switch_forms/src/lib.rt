//! How what a snapshot keeps of the inputs of a node's switch and of its link ends stands in bytes, and its readers and writers. See docs/SNAPSHOTS.md.
#![tactic(auto)]

mod input;
mod link_end;

pub use input::{read_inputs, write_inputs};
pub use link_end::{read_link_ends, write_link_ends};
