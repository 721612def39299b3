//! What is kept of a node's pins for its wires: what was told of those that it drives, and what came for those that others drive.
//! See docs/PINS.md.
#![tactic(auto)]

mod drives;
mod levels;

pub use drives::Drives;
pub use levels::Levels;
