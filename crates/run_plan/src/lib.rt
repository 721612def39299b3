//! The serial machine: all nodes of a system, stepped together, over slots in which nothing happens anywhere at once. See docs/MACHINE.md.
#![tactic(auto)]

mod begun;
mod inbound;
mod machine;
mod passes;
mod quiet;
mod serial;
mod slot_told;
mod station;
mod track;
mod wire;
mod wiring;

pub use machine::SerialMachine;
pub use serial::machines_are_serial;
pub use xs_base::Entry;
