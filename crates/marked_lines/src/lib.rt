//! A faulty line with a mark under a place in it, what may stand there, and names that are near a name. See docs/LOOK.md.
#![tactic(auto)]

mod bad_byte;
mod near;
mod quote;
mod spot;
mod wants;
mod words;

pub use bad_byte::append_bad_byte;
pub use near::{append_near_directives, append_near_labels, append_near_rows, append_near_words};
pub use quote::{append_accepted, append_line, append_mark};
pub use spot::{Spot, Stop};
pub use wants::word_text;
