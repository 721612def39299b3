//! Cells: the log of a directed link or a wire, which the end that writes and the end that reads use by turns from two threads.
//! See docs/LOOKAHEAD.md.
#![tactic(auto)]

mod answers;
mod cell;
mod ends;
mod keeps;
mod plays;
mod steps;
#[cfg(test)]
mod tests;
mod view;

pub use answers::{Sent, TryGot};
pub use cell::{Cell, make_cell};
pub use ends::{ReadEnd, WriteEnd};
