//! Tells of a source that is refused at which place of its line, what may stand there, and what is meant. See docs/LOOK.md.
#![tactic(auto)]

mod fits;
mod forms;
mod labels;
mod meant;
mod numbers;
mod rows;
mod source_line;
mod spots;
mod told;
mod uses;
mod values;
mod words;

pub use told::append_told;
