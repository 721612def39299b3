//! The program's one call.
ghost use Rattle.std.specs.Prelude.{◌≡◌, IfOk, Some, map, string_bytes};
ghost use Rattle.program_calls.specs.Calls.{Calls};
ghost use Rattle.look_forms.specs.Words.{look_form};
ghost use Rattle.look_forms.specs.Answers.{look_by};
ghost use Rattle.xs1_look_top.specs.Asked.{asked_of};

use crate::program::Look;
use crate::words::{look_form, usage_line};
use crate::{chart, explain, issues, profile, states, watch};
use answer_model::{Answer, Status};
use look_forms::LookForm;
use program_calls::{refuse, respond};
use std::alloc::{AllocError, Global};
use xs_edge::{Sink, Source};

// One byte past the longest system text.
const MOST_OF_TEXT: usize = 4_194_305;

/// The whole program: its words choose a form, the input is read to its end, and what the form answers to it is written. `explain` answers
/// with why the input is refused, where it is. `states SLOTS` runs
/// the system that the input stands for, all nodes together, and answers with what each thread does and waits for, and what the network
/// holds; `profile SLOTS` answers with how often each instruction was issued and waited at, and in how many slots each thread did what;
/// `issues SLOTS FROM` with a line for each issue from slot FROM on, `watch SLOTS ADDRESS ..` with one for each store to some
/// words, and `chart SLOTS FROM` with a character for what each thread does in each slot. `words` are the program's, without its name. With
/// words of no form nothing is read. Of a system text no more than 4,194,305 bytes are read, and one of more than 4,194,304 bytes is refused. Nothing is
/// written before all is done, and writing takes no memory. It returns. See docs/LOOK.md.
///
/// The statuses, of which `Status::number` gives the number; the fields of `Calls` say when each comes:
///
/// - `Done`: the text of the answer was written.
/// - `Memory`: memory was wanting. Nothing was written.
/// - `Usage`: the words are of no form. The usage line was written.
/// - `SystemFault`, `SourceFault`, `ScriptFault`: the frame, a node's source, or the pin script is refused, each where those before it are
///   accepted. The line of the refusal was written.
/// - `ReadFault`: a read failed, so the source's count of faults has risen. Nothing was written.
/// - `WriteFault`: a write failed, so the sink's count of faults has risen. A front of what was to be written, or nothing, was written.
pub fn look<S: Source, K: Sink>(
    alloc: Global,
    words: &[String],
    source: &mut S,
    sink: &mut K,
) -> Status
    ensures calls { Calls S.left S.faults S.read_gives K.written K.faults (asked_of (map string_bytes words.now)) source.old source.new sink.old sink.new result }
{
    let Some(form) = look_form(words) else {
        return refuse::<Look, _, _>(words, source, sink, usage_line());
    };
    respond::<Look, _, _, _>(
        alloc,
        words,
        Some(MOST_OF_TEXT),
        source,
        sink,
        |input: &[u8]| -> Result<Answer, AllocError>
            ensures { IfOk result (λ answer. answer ≡ look_by form input.now) }
        { answer(alloc, &form, input) },
    )
}

// What a form answers to the bytes of the input: each has its module. The error is want of memory.
fn answer(alloc: Global, form: &LookForm, input: &[u8]) -> Result<Answer, AllocError>
    ensures { IfOk result (λ answer. answer ≡ look_by form.now input.now) }
{
    match form {
        LookForm::Explain => explain::answer(alloc, input),
        LookForm::States(slots) => states::answer(alloc, *slots, input),
        LookForm::Issues(slots, from) => issues::answer(alloc, *slots, *from, input),
        LookForm::Profile(slots) => profile::answer(alloc, *slots, input),
        LookForm::Watch(slots, addresses) => watch::answer(alloc, *slots, addresses, input),
        LookForm::Chart(slots, from) => chart::answer(alloc, *slots, *from, input),
    }
}
