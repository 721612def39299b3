//! `make_system`, which writes the load of a number. See docs/LOADS.md.
#![tactic(auto)]

mod by_node;
mod lines;
mod ring;
mod system;

pub use system::make_system;
