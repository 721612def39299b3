//! Instructions, and images: the code, data and labels that a source stands for. See docs/INSTRUCTIONS.md.
#![tactic(auto)]

mod build;
mod code;
mod forms;
mod image;
mod instr;
mod laws;
mod look_up;
mod rows;
mod shape;
mod source_hash;
mod symbols;
mod table;
mod words;
mod writing;

pub use code::{MOST_CODE, instr_at};
pub use image::Image;
pub use instr::{FlowIns, Instr, KernelIns, MemIns, ResIns, ThreadIns, WordIns};
pub use laws::{built_is_of_its_row, written_is_read};
pub use look_up::{find, known};
pub use rows::{Part, ROWS, Row};
pub use shape::{Form, Piece, Shape};
pub use symbols::{Symbols, is_reserved, same_name};
pub use words::{fixed, register_number};
pub use writing::spelling;
