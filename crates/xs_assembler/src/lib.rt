//! The assembler: what a source text stands for. See docs/ASSEMBLY.md.
#![tactic(auto)]

mod amount;
mod asm_error;
mod assembler;
mod before;
mod code_lines;
mod contents;
mod faults;
mod layouts;
mod names;
mod operands;
mod output;
mod sofar;
mod statement;
mod tokens;
mod values;

pub use asm_error::AsmError;
pub use assembler::assemble;
pub use code_lines::lines_of_code;
pub use source_model::AsmKind;
