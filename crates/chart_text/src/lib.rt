//! The text that `chart SLOTS FROM` of `xs1_look` writes. See docs/LOOK.md.
#![tactic(auto)]

mod blocks;
mod columns;
mod padding;
mod rows;
mod ruler;

pub use blocks::chart;
