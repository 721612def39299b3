//! The form `save SLOTS`.
ghost use Rattle.std.specs.Prelude.{◌≡◌, IfOk};
ghost use Rattle.system_model.specs.System as stands;
ghost use Rattle.system_model.specs.System.{system_of};
ghost use Rattle.answer_model.specs.SaveForm.{save_answer, saved_text};

use answer_model::{Answer, Status};
use snap_codec::write_snap;
use snap_run::save_at;
use std::alloc::{AllocError, Global};
use sys_plan::Plan;
use system_answers::{Reading, read};
use xs_base::Text;

/// Runs the system of the input for so many slots, all nodes together, and answers with the snapshot of what it has come to. The error is
/// want of memory. See docs/SNAPSHOTS.md.
pub fn answer(alloc: Global, slots: u32, input: &[u8]) -> Result<Answer, AllocError>
    ensures { IfOk result (λ answer. answer ≡ save_answer slots input.now) }
{
    match read(alloc, input)? {
        Reading::System(plan) => Ok(Answer {
            text: saved_text(alloc, input, slots, &plan)?,
            status: Status::Done,
        }),
        Reading::Refused(answer) => Ok(answer),
    }
}

// The snapshot of a run of so many slots by the plan of a text. The error is want of memory.
fn saved_text(alloc: Global, text: &[u8], slots: u32, plan: &Plan) -> Result<Text, AllocError>
    requires plan { system_of text.now ≡ stands.Plan plan.now }
    ensures text { IfOk result (λ saved. saved ≡ saved_text text.now slots plan.now) }
{
    let snap = save_at(alloc, plan, text, slots)?;
    write_snap(alloc, &snap)
}
