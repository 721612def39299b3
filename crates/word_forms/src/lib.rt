//! How far the words of a line of a frame or of a pin script have a form, and what may stand where they stop. See docs/LOOK.md.
#![tactic(auto)]

mod fits;
mod forms;
mod pins;

pub use fits::fits_word;
pub use forms::{spot_of_forms, stop_of_words};
pub use pins::{port_in, script_pin};
