//! The forms of the words of `xs1_look`, and what each answers: definitions. See docs/LOOK.md.
#![tactic(auto)]

use arrayvec::ArrayVec;

/// How many addresses are watched at most.
pub const MOST_WATCHED: usize = 16;

/// The forms of the command words of `xs1_look`. See docs/LOOK.md.
#[derive(Drop)]
pub enum LookForm {
    /// `states SLOTS`: what a run of so many slots has come to.
    States(u32),
    /// `issues SLOTS FROM`: the issues of a run of so many slots, from a slot on.
    Issues(u32, u32),
    /// `explain`: why a text is refused.
    Explain,
    /// `profile SLOTS`: what is counted in a run of so many slots.
    Profile(u32),
    /// `watch SLOTS ADDRESS ..`: the stores to some words in a run of so many slots.
    Watch(u32, ArrayVec<u32, 16>),
    /// `chart SLOTS FROM`: what each thread does in each slot of a run of so many slots, from a slot on.
    Chart(u32, u32),
}
