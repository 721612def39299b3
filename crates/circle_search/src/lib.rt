//! A circle in a graph of who waits for whom: whether there is one, and which is told. See docs/LOOK.md.
#![tactic(auto)]

mod laws;
mod search;

pub use laws::{circles_are_told, told_circles_are_circles, worked_circles};
pub use search::circle;
