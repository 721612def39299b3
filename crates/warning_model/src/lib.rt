//! What `explain` warns of in a system text that is accepted: definitions. See docs/LOOK.md.
#![tactic(auto)]

/// How many warnings are told.
pub const MOST_WARNINGS: usize = 100;
