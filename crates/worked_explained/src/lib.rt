//! Facts of what `explain` of `xs1_look` tells, which were worked out by hand from docs/LOOK.md. Nothing stands on them.
#![tactic(auto)]

mod frame_lines;
mod script_lines;
mod warnings;

pub use frame_lines::worked_frame_lines;
pub use script_lines::worked_script_lines;
pub use warnings::worked_warnings;
