//! Tells of a system text of which the frame is refused at which place of its line, what may stand there, and what is meant. See docs/LOOK.md.
#![tactic(auto)]

mod faulty_line;
mod form_spots;
mod line_at;
mod line_words;
mod meant;
mod spots;
mod told;
mod twice;
mod unknown;
mod word_lines;
mod words;

pub use told::append_frame_told;
