//! The one call of `xs1_look`: the words choose a form, which answers to the input, and the answer is written. See docs/LOOK.md.
#![tactic(auto)]

mod call;
mod chart;
mod explain;
mod issues;
mod profile;
mod program;
mod states;
mod watch;
mod words;

pub use answer_model::Status;
pub use call::look;
