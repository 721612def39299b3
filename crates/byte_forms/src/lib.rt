//! Forms of bytes: layouts of fields that are told once and read both ways, and readers and writers of the fields.
#![tactic(auto)]

mod fault;
mod reader;
mod writer;

pub use fault::Fault;
pub use reader::Reader;
pub use writer::{
    write_byte, write_flag, write_half, write_long, write_option_byte, write_option_half,
    write_option_word, write_word,
};
