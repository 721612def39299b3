//! The form `play SLOTS`.
ghost use Rattle.std.specs.Prelude.{◌≡◌, IfOk};
ghost use Rattle.answer_model.specs.PlayForm.{play_answer, played_text};

use answer_model::{Answer, Status};
use play_text::play;
use run_drive::{DriveError, drive_play};
use std::alloc::{AllocError, Global};
use std::sync::Arc;
use sys_plan::Plan;
use system_answers::{Reading, read};
use xs_base::Text;

/// Takes the steps of the schedule of the input's system, in a run of so many slots, and answers with what each of them leaves. The
/// error is want of memory. See docs/OUTPUT.md.
pub fn answer(alloc: Global, slots: u32, input: &[u8]) -> Result<Answer, AllocError>
    ensures { IfOk result (λ answer. answer ≡ play_answer slots input.now) }
{
    match read(alloc, input)? {
        Reading::System(plan) => Ok(Answer {
            text: played_text(alloc, slots, plan)?,
            status: Status::Done,
        }),
        Reading::Refused(answer) => Ok(answer),
    }
}

// What the steps of a plan leave.
fn played_text(alloc: Global, slots: u32, plan: Plan) -> Result<Text, AllocError>
    ensures text { IfOk result (λ text. text ≡ played_text slots plan) }
{
    let plan = Arc::new(alloc, plan)?;
    match drive_play(alloc, &plan, slots) {
        Ok(played) => play(alloc, &plan, &played),
        Err(DriveError::Memory) => Err(AllocError),
    }
}
