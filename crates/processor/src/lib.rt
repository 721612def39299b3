//! A core's processor: its program, its units, and at most one issue in a slot. See docs/MACHINE.md and docs/INSTRUCTIONS.md.
#![tactic(auto)]

mod divider;
mod edges;
mod issue;
mod picks;
mod ports;
mod processor;
mod program;
mod quiet;
mod rows;

pub use core_units::{BadAddress, Holders, Ram};
pub use event_unit::Choice;
pub use picks::NextIssue;
pub use processor::Processor;
pub use program::Program;
