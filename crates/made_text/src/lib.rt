//! The line that tells what a load came to. See docs/LOADS.md.
#![tactic(auto)]

mod line;
mod totals;

pub use line::made;
