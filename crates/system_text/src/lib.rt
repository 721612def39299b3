//! Reads a system text: the frame of a system with its schedule, the sources of its nodes, and its pin script. See
//! docs/SYSTEM_TEXT.md.
#![tactic(auto)]

mod code_lines;
mod end_numbers;
mod frame;
mod frame_lines;
mod frame_reader;
mod link_plans;
mod node_plans;
mod script;
mod section;
mod step_lines;
mod step_plans;
mod system_error;
mod system_reader;
mod wire_lines;
mod wire_plans;
mod wires;
mod words;

pub use code_lines::read_code_lines;
pub use pin_scripts::PinKind;
pub use source_model::AsmKind;
pub use system_error::SystemError;
pub use system_model::SysKind;
pub use system_reader::{LONGEST_INPUT, read_system};
