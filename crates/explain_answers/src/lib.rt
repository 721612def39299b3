//! What `explain` answers to a system text: why it is refused, told of its line. See docs/LOOK.md.
#![tactic(auto)]

mod answer;
mod lines;
mod openings;
mod section;

pub use answer::explain;
