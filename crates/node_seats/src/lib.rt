//! A node at work: its core and its events, stepped by what comes to it; and what its pins show from outside. See docs/MACHINE.md.
#![tactic(auto)]

mod pins;
mod seat;

pub use pins::Pins;
pub use seat::Seat;
