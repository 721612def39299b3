//! The tokens and words of a line with their places, the lines of a text by their numbers, and the section in which a line of a source stands. See
//! docs/LOOK.md.
#![tactic(auto)]

mod lines;
mod placed_words;
mod sections;
mod token;
mod tokens;
mod word;

pub use lines::bytes_of_line;
pub use placed_words::next_word_at;
pub use sections::{home_of, section_after_line, section_of};
pub use token::Token;
pub use tokens::{behind_labels, next_label, next_token};
pub use word::Word;
