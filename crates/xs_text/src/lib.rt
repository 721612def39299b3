//! Lines and tokens of a text, a byte slice. Nothing here takes memory.
#![tactic(auto)]

mod byte_tests;
mod line_reader;
mod number_reader;
mod token_reader;
mod word_reader;

pub use byte_tests::{all_allowed, is_allowed};
pub use line_reader::{Line, Lines};
pub use number_reader::{is_plain_number, number, source_number};
pub use token_reader::{Tok, TokKind, is_decimal, is_name, is_number, next_tok};
pub use word_reader::next_word;
