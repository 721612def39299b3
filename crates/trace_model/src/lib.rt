//! The text that a run writes: definitions alone. See docs/OUTPUT.md.
#![tactic(auto)]
