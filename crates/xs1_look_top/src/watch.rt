//! The form `watch SLOTS ADDRESS ..`.
ghost use Rattle.std.specs.Prelude.{◌≡◌, IfOk};
ghost use Rattle.system_model.specs.System as stands;
ghost use Rattle.system_model.specs.System.{system_of};
ghost use Rattle.look_forms.specs.Answers.{watch_text, look_by};
ghost use Rattle.look_forms.specs.declared.LookForm.TheVariants.{Watch};

use answer_model::{Answer, Status};
use arrayvec::ArrayVec;
use issue_text::watch;
use std::alloc::{AllocError, Global};
use sys_plan::Plan;
use system_answers::{Reading, read};
use system_text::read_code_lines;
use xs_base::Text;

/// Runs the system of the input for so many slots, all nodes together, and answers with a line for each store to the words in which these
/// addresses lie. The error is want of memory. See docs/LOOK.md.
pub fn answer(
    alloc: Global,
    slots: u32,
    addresses: &ArrayVec<u32, 16>,
    input: &[u8],
) -> Result<Answer, AllocError>
    ensures { IfOk result (λ answer. answer ≡ look_by (Watch slots addresses.now) input.now) }
{
    match read(alloc, input)? {
        Reading::System(plan) => Ok(Answer {
            text: watch_text(alloc, input, slots, addresses.as_slice(), &plan)?,
            status: Status::Done,
        }),
        Reading::Refused(answer) => Ok(answer),
    }
}

// What a run by the plan of a text comes to. The error is want of memory.
fn watch_text(
    alloc: Global,
    text: &[u8],
    slots: u32,
    addresses: &[u32],
    plan: &Plan,
) -> Result<Text, AllocError>
    requires plan { system_of text.now ≡ stands.Plan plan.now }
    ensures text { IfOk result (λ watch. watch ≡ watch_text text.now slots addresses.now plan.now) }
{
    let lines = read_code_lines(alloc, text)?;
    let text = watch(alloc, plan, &lines, slots, addresses)?;
    Ok(text)
}
