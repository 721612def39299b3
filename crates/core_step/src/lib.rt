//! One node's core: boot, and one slot after another. See docs/MACHINE.md.
#![tactic(auto)]

mod network;
mod node_core;
mod node_state;
mod pin_levels;
mod rest;
mod told;

pub use node_core::Core;
pub use node_state::NodeState;
pub use processor::{BadAddress, Choice, NextIssue};
pub use sys_plan::NodePlan;
pub use told::Told;
pub use trace_lines::{Emissions, Event, Happen};
pub use xs_model::{Arrivals, Outcome, PinView, Run, Thread, Wait};
