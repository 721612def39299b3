//! What names an arc of the run of a plan, and what its log has of the serial machine. See docs/LOOKAHEAD.md.
#![tactic(auto)]

mod histories;
mod story;

pub use histories::{history_in, stories_are_histories, totals_in};
pub use story::PlanStory;
