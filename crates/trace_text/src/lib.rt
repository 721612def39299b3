//! The text that a run of a system writes. See docs/OUTPUT.md.
#![tactic(auto)]

mod by_node;
mod change_lines;
mod ended;
mod node_lines;
mod traffic_lines;
mod whole_trace;

pub use ended::EndedRun;
pub use whole_trace::{end_text, trace};
