//! What a system has become at the limit of a run, whatever the way in which its nodes were run. See docs/LOOKAHEAD.md.
#![tactic(auto)]

mod run;
mod runners;
mod sent;
mod together;

pub use run::FinishedRun;
