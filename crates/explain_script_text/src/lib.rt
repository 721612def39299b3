//! Tells of a pin script that is refused at which place of its line, what may stand there, and what is meant. See docs/LOOK.md.
#![tactic(auto)]

mod before;
mod line_words;
mod meant;
mod script_line;
mod spots;
mod texts;
mod told;

pub use told::append_script_told;
