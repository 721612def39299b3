//! The form `explain`.
ghost use Rattle.std.specs.Prelude.{◌≡◌, IfOk};
ghost use Rattle.look_forms.specs.Answers.{look_by};
ghost use Rattle.look_forms.specs.declared.LookForm.TheVariants.{Explain};

use answer_model::Answer;
use explain_answers::explain;
use std::alloc::{AllocError, Global};

/// Answers with why the text of the input is refused, where it is. The error is want of memory. See docs/LOOK.md.
pub fn answer(alloc: Global, input: &[u8]) -> Result<Answer, AllocError>
    ensures { IfOk result (λ answer. answer ≡ look_by Explain input.now) }
{
    explain(alloc, input)
}
