//! The rows on words: what they do to the registers of the thread that issues them. See docs/INSTRUCTIONS.md.
#![tactic(auto)]

mod divisions;
mod rows;
mod words;

pub use divisions::is_division;
pub use rows::{alu, division};
