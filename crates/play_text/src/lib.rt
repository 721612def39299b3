//! The text that a play of a schedule writes. See docs/OUTPUT.md.
#![tactic(auto)]

mod step_lines;
mod whole_play;

pub use whole_play::play;
