//! The form `states SLOTS`.
ghost use Rattle.std.specs.Prelude.{◌≡◌, IfOk};
ghost use Rattle.system_model.specs.System as stands;
ghost use Rattle.system_model.specs.System.{system_of};
ghost use Rattle.look_model.specs.States.{states_text};
ghost use Rattle.look_forms.specs.Answers.{look_by};
ghost use Rattle.look_forms.specs.declared.LookForm.TheVariants.{States};

use answer_model::{Answer, Status};
use snap_run::save_at;
use state_text::states;
use std::alloc::{AllocError, Global};
use sys_plan::Plan;
use system_answers::{Reading, read};
use system_text::read_code_lines;
use xs_base::Text;

/// Runs the system of the input for so many slots, all nodes together, and answers with what it has come to, in words. The error is want of
/// memory. See docs/LOOK.md.
pub fn answer(alloc: Global, slots: u32, input: &[u8]) -> Result<Answer, AllocError>
    ensures { IfOk result (λ answer. answer ≡ look_by (States slots) input.now) }
{
    match read(alloc, input)? {
        Reading::System(plan) => Ok(Answer {
            text: states_text(alloc, input, slots, &plan)?,
            status: Status::Done,
        }),
        Reading::Refused(answer) => Ok(answer),
    }
}

// What a run of so many slots by the plan of a text has come to. The error is want of memory.
fn states_text(alloc: Global, text: &[u8], slots: u32, plan: &Plan) -> Result<Text, AllocError>
    requires plan { system_of text.now ≡ stands.Plan plan.now }
    ensures text { IfOk result (λ states. states ≡ states_text text.now slots plan.now) }
{
    let lines = read_code_lines(alloc, text)?;
    let snap = save_at(alloc, plan, text, slots)?;
    states(alloc, plan, &lines, snap.system())
}
