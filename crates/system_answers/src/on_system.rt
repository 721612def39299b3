//! What the forms share that read a system text.
ghost use Rattle.std.specs.Prelude.{IfOk};
ghost use Rattle.system_model.specs.System.{system_of};
ghost use Rattle.system_answers.specs.OnSystem.{IsReading};

use crate::refusals::{frame_line, pins_line, source_line};
use answer_model::{Answer, Status};
use std::alloc::{AllocError, Global};
use sys_plan::Plan;
use system_text::{SystemError, read_system};

/// What a form finds that reads a system text.
#[derive(Drop)]
pub enum Reading {
    /// The plan of the system.
    System(Plan),
    /// The answer that refuses it, whatever the form.
    Refused(Answer),
}

/// Reads a system text. The error is want of memory. See docs/SYSTEM_TEXT.md.
pub fn read(alloc: Global, input: &[u8]) -> Result<Reading, AllocError>
    ensures { IfOk result (λ reading. IsReading (system_of input.now) reading) }
{
    let reading = match read_system(alloc, input) {
        Ok(plan) => Reading::System(plan),
        Err(SystemError::Frame { line, kind }) => Reading::Refused(Answer {
            text: frame_line(alloc, line, kind)?,
            status: Status::SystemFault,
        }),
        Err(SystemError::Source { node, line, kind }) => Reading::Refused(Answer {
            text: source_line(alloc, node, line, kind)?,
            status: Status::SourceFault,
        }),
        Err(SystemError::Pins { line, kind }) => Reading::Refused(Answer {
            text: pins_line(alloc, line, kind)?,
            status: Status::ScriptFault,
        }),
        Err(SystemError::Memory) => return Err(AllocError),
    };
    Ok(reading)
}
