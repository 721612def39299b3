//! The form `make NUMBER`.
ghost use Rattle.std.specs.Prelude.{◌≡◌, IfOk};
ghost use Rattle.answer_model.specs.MakeForm.{made_answer};
ghost use Rattle.load_model.specs.Made.{made_text};

use answer_model::{Answer, Status};
use load_maker::make_system;
use made_text::made;
use run_drive::{DriveError, drive_serial};
use std::alloc::{AllocError, Global};
use std::sync::Arc;
use sys_plan::Plan;
use system_answers::{Reading, read};
use xs_base::Text;

// For so many slots a load runs.
const MADE_SLOTS: u32 = 60_000;

/// Makes the load of a number, runs it with all nodes together, and answers with the line that tells what it came to. The error is want
/// of memory. See docs/LOADS.md.
pub fn answer(alloc: Global, number: u32) -> Result<Answer, AllocError>
    ensures { IfOk result (λ answer. answer ≡ made_answer number) }
{
    let load = make_system(alloc, number)?;
    match read(alloc, load.bytes())? {
        Reading::System(plan) => Ok(Answer {
            text: made_text(alloc, number, plan)?,
            status: Status::Done,
        }),
        Reading::Refused(answer) => Ok(answer),
    }
}

// What the load of a number comes to by its plan.
fn made_text(alloc: Global, number: u32, plan: Plan) -> Result<Text, AllocError>
    ensures text { IfOk result (λ text. text ≡ made_text number plan) }
{
    let plan = Arc::new(alloc, plan)?;
    match drive_serial(alloc, &plan, MADE_SLOTS) {
        Ok(finished) => made(alloc, number, &plan, finished.run()),
        Err(DriveError::Memory) => Err(AllocError),
    }
}
