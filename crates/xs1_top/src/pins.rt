//! The form `pinsof N`.
ghost use Rattle.std.specs.Prelude.{◌≡◌, IfOk};
ghost use Rattle.wave_model.specs.Reads.{Refused};
ghost use Rattle.answer_model.specs.PinsForm.{answer_to_pins, pins_answer};

use crate::refusals::{is_too_long, too_long, wave_fault_line};
use answer_model::{Answer, Status};
use std::alloc::{AllocError, Global};
use vcd_writer::{WaveError, WaveKind, pins_of};

/// Answers with the pin script that the wave text of the input gives the node with a number, 0 to 99, or with the line that refuses it: the
/// whole of it where it is too long, then a line with which no wave text goes on, then the node. The error is want of memory. See
/// docs/WAVES.md.
pub fn answer(alloc: Global, node: u8, input: &[u8]) -> Result<Answer, AllocError>
    ensures { IfOk result (λ answer. answer ≡ pins_answer node input.now) }
{
    if is_too_long(input) {
        return too_long(alloc);
    }
    match pins_of(alloc, input, node) {
        Ok(text) => Ok(Answer {
            text,
            status: Status::Done,
        }),
        Err(WaveError::Fault { line, kind }) => refused(alloc, line, kind),
        Err(WaveError::Memory) => Err(AllocError),
    }
}

// The line that refuses a wave text. The error is want of memory.
fn refused(alloc: Global, line: u32, kind: WaveKind) -> Result<Answer, AllocError>
    ensures { IfOk result (λ answer. answer ≡ answer_to_pins (Refused line kind)) }
{
    Ok(Answer {
        text: wave_fault_line(alloc, line, kind)?,
        status: Status::SystemFault,
    })
}
