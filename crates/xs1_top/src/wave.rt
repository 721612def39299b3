//! The form `wave SLOTS`.
ghost use Rattle.std.specs.Prelude.{◌≡◌, IfOk};
ghost use Rattle.answer_model.specs.WaveForm.{wave_answer, waved_text};

use answer_model::{Answer, Status};
use std::alloc::{AllocError, Global};
use sys_plan::Plan;
use system_answers::{Reading, read};
use vcd_writer::wave;
use xs_base::Text;

/// Runs the system of the input for so many slots, all nodes together, and answers with the levels of its pins. The error is want of memory.
/// See docs/WAVES.md.
pub fn answer(alloc: Global, slots: u32, input: &[u8]) -> Result<Answer, AllocError>
    ensures { IfOk result (λ answer. answer ≡ wave_answer slots input.now) }
{
    match read(alloc, input)? {
        Reading::System(plan) => Ok(Answer {
            text: waved_text(alloc, slots, &plan)?,
            status: Status::Done,
        }),
        Reading::Refused(answer) => Ok(answer),
    }
}

// The levels of the pins of a plan. The error is want of memory.
fn waved_text(alloc: Global, slots: u32, plan: &Plan) -> Result<Text, AllocError>
    ensures text { IfOk result (λ text. text ≡ waved_text slots plan.now) }
{
    wave(alloc, plan, slots)
}
