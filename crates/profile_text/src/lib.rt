//! The text that `profile SLOTS` of `xs1_look` writes. See docs/LOOK.md.
#![tactic(auto)]

mod links;
mod nodes;
mod places;
mod threads;
mod words;

pub use nodes::profile;
