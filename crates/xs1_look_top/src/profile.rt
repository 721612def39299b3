//! The form `profile SLOTS`.
ghost use Rattle.std.specs.Prelude.{◌≡◌, IfOk};
ghost use Rattle.system_model.specs.System as stands;
ghost use Rattle.system_model.specs.System.{system_of};
ghost use Rattle.look_forms.specs.Answers.{profile_text, look_by};
ghost use Rattle.look_forms.specs.declared.LookForm.TheVariants.{Profile};

use answer_model::{Answer, Status};
use profile_text::profile;
use std::alloc::{AllocError, Global};
use sys_plan::Plan;
use system_answers::{Reading, read};
use system_text::read_code_lines;
use xs_base::Text;

/// Runs the system of the input for so many slots, all nodes together, and answers with how often each instruction was issued and waited at, in how
/// many slots each thread did what, and what each link end sent. The error is want of memory. See docs/LOOK.md.
pub fn answer(alloc: Global, slots: u32, input: &[u8]) -> Result<Answer, AllocError>
    ensures { IfOk result (λ answer. answer ≡ look_by (Profile slots) input.now) }
{
    match read(alloc, input)? {
        Reading::System(plan) => Ok(Answer {
            text: profile_text(alloc, input, slots, &plan)?,
            status: Status::Done,
        }),
        Reading::Refused(answer) => Ok(answer),
    }
}

// What a run by the plan of a text comes to. The error is want of memory.
fn profile_text(alloc: Global, text: &[u8], slots: u32, plan: &Plan) -> Result<Text, AllocError>
    requires plan { system_of text.now ≡ stands.Plan plan.now }
    ensures text { IfOk result (λ profile. profile ≡ profile_text text.now slots plan.now) }
{
    let lines = read_code_lines(alloc, text)?;
    let text = profile(alloc, plan, &lines, slots)?;
    Ok(text)
}
