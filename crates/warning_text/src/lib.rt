//! Tells of a system text that is accepted what is most likely a mistake in it. See docs/LOOK.md.
#![tactic(auto)]

mod doubts;
mod frame;
mod known;
mod labels;
mod names;
mod places;
mod sections;
mod source;
mod source_lines;
mod sources;
mod statement;
mod texts;
mod values;
mod warning;
mod warnings;
mod ways;
mod words;

pub use warnings::append_warnings;
