//! The form `chart SLOTS FROM`.
ghost use Rattle.std.specs.Prelude.{◌≡◌, IfOk};
ghost use Rattle.look_forms.specs.Answers.{look_by};
ghost use Rattle.look_forms.specs.declared.LookForm.TheVariants.{Chart};

use answer_model::{Answer, Status};
use chart_text::chart;
use std::alloc::{AllocError, Global};
use system_answers::{Reading, read};

/// Runs the system of the input for so many slots, all nodes together, and answers with what each thread does in each slot from slot `from` on.
/// The error is want of memory. See docs/LOOK.md.
pub fn answer(alloc: Global, slots: u32, from: u32, input: &[u8]) -> Result<Answer, AllocError>
    ensures { IfOk result (λ answer. answer ≡ look_by (Chart slots from) input.now) }
{
    match read(alloc, input)? {
        Reading::System(plan) => Ok(Answer {
            text: chart(alloc, &plan, slots, from)?,
            status: Status::Done,
        }),
        Reading::Refused(answer) => Ok(answer),
    }
}
