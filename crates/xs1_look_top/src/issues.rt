//! The form `issues SLOTS FROM`.
ghost use Rattle.std.specs.Prelude.{◌≡◌, IfOk};
ghost use Rattle.system_model.specs.System as stands;
ghost use Rattle.system_model.specs.System.{system_of};
ghost use Rattle.look_forms.specs.Answers.{issues_text, look_by};
ghost use Rattle.look_forms.specs.declared.LookForm.TheVariants.{Issues};

use answer_model::{Answer, Status};
use issue_text::issues;
use std::alloc::{AllocError, Global};
use sys_plan::Plan;
use system_answers::{Reading, read};
use system_text::read_code_lines;
use xs_base::Text;

/// Runs the system of the input for so many slots, all nodes together, and answers with a line for each issue from slot `from` on. The error is
/// want of memory. See docs/LOOK.md.
pub fn answer(alloc: Global, slots: u32, from: u32, input: &[u8]) -> Result<Answer, AllocError>
    ensures { IfOk result (λ answer. answer ≡ look_by (Issues slots from) input.now) }
{
    match read(alloc, input)? {
        Reading::System(plan) => Ok(Answer {
            text: issues_text(alloc, input, slots, from, &plan)?,
            status: Status::Done,
        }),
        Reading::Refused(answer) => Ok(answer),
    }
}

// What a run by the plan of a text comes to. The error is want of memory.
fn issues_text(
    alloc: Global,
    text: &[u8],
    slots: u32,
    from: u32,
    plan: &Plan,
) -> Result<Text, AllocError>
    requires plan { system_of text.now ≡ stands.Plan plan.now }
    ensures text { IfOk result (λ issues. issues ≡ issues_text text.now slots from plan.now) }
{
    let lines = read_code_lines(alloc, text)?;
    let text = issues(alloc, plan, &lines, slots, from)?;
    Ok(text)
}
