ghost use Rattle.std.specs.Prelude.{◌≡◌, ◌<◌, ◌≤◌, ◌^◌, ◌++◌, length, replicate, IfOk, OnOk};
ghost use Rattle.source_model.specs.CodeLines.{code_lines};
ghost use Rattle.xs_text.specs.Lines.{lines_of};

use crate::assembler::note_line;
use crate::sofar::Sofar;
use std::alloc::{AllocError, Global};
use xs_text::Lines;

/// The line of a source of fewer than 2^32 bytes that each instruction of its code comes from, in the order of the code: lines
/// count from 1. An accepted source has at most 16 384 instructions. One that is refused may give far more numbers than it has
/// bytes, since a line can align the code to 65 536. The error is want of memory. See docs/ASSEMBLY.md.
pub fn lines_of_code(alloc: Global, text: &[u8]) -> Result<Vec<u32>, AllocError>
    requires { length text.now < 2 ^ 32 }
    ensures { IfOk result (λ numbers. numbers.items ≡ code_lines (lines_of text.now)) }
{
    let mut lines = Lines::new(text);
    let mut sofar = Sofar::of_source(alloc, text);
    let mut numbers = Vec::new(alloc);
    while let Some(line) = lines.next_line() {
        let before = sofar.layout.instructions;
        note_line(alloc, &mut sofar, &text[line.from..line.to])?;
        put_number(
            &mut numbers,
            line.number,
            sofar.layout.instructions - before,
        )?;
    }
    Ok(numbers)
}

// Puts a number so many times at the end.
fn put_number(numbers: &mut Vec<u32>, number: u32, times: u64) -> Result<(), AllocError>
    requires { times ≤ 2 ^ 50 }
    ensures { OnOk result (numbers.new.items ≡ numbers.old.items ++ replicate times number) }
{
    numbers.resize(numbers.len() + times as usize, number)?;
    Ok(())
}
