//! What crosses a link end in one slot, from the slot's emissions to the arrivals a delay later. See docs/LINKS.md.
#![tactic(auto)]

mod crossing;

pub use crossing::{Crossing, due};
