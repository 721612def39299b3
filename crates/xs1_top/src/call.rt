//! The program's one call, and the same for words of which no form may wait.
ghost use Rattle.std.specs.Prelude.{◌≡◌, ◌≢◌, ◌<◌, ◌⊎◌, false, None, IfOk, map, string_bytes};
ghost use Rattle.xs_edge.specs.Edge.{HasRisen};
ghost use Rattle.answer_model.specs.Forms.{asks_for_input, form_may_wait, form_of_words, may_wait};
ghost use Rattle.answer_model.specs.Top.{answer_by, most_reads};
ghost use Rattle.program_calls.specs.Call.{IsWhole, IsRead, IsSilent, Answers, AnswersInPart, TookInput, IsAnswerStatus, EndsWhere, IsCalm};
ghost use Rattle.program_calls.specs.Calls.{Calls};
ghost use Rattle.program_calls.specs.Reads.{ReadsAtMost};
ghost use Rattle.xs1_top.specs.Asked.{asked_of};

use crate::program::Xs1;
use crate::words::{asks_of, form_of_words, usage_line};
use crate::{check, make, pins, play, resume, routes, run, save, wave};
pub use answer_model::Status;
use answer_model::{Answer, Form};
use program_calls::{refuse, respond};
use std::alloc::{AllocError, Global};
use std::sync::Wait;
use std::thread::Threads;
use xs_edge::{Gate, Sink, Source};

/// The whole program: its words choose a form, the input is read to its end if the form asks for it, and what the form
/// answers to it is written. `run SLOTS` and `run SLOTS free` run the system that the input stands for, each node on a worker of its
/// own that passes `gate` before each of its turns, `run SLOTS serial` runs it all nodes together, `run SLOTS rounds` runs it round by
/// round, where each node passes `gate` in each round, and all four answer with the trace; `play SLOTS` takes the steps of its schedule
/// one by one, in a run of so many slots, and answers with what each leaves and publishes; `make NUMBER` runs the load of the number for
/// 60,000 slots, all nodes together, and answers with the line of what it came to; `check` runs nothing and answers with each node's
/// source as its image gives it; `save SLOTS` runs the system that the input stands for, all nodes together, and answers with the snapshot
/// of it before slot SLOTS; `resume SLOTS` goes on from the snapshot that the input is, all nodes together, up to slot SLOTS, and answers
/// with the rest of the trace; `routes` runs nothing and answers whether packets arrive in the system that the input stands for, by the ranks
/// before its text; `wave SLOTS` runs the system, all nodes together, and answers with the levels of its pins at the end of each slot;
/// `pinsof N` runs nothing and answers with the pin script that the wave text that the input is gives node N. `words` are the program's,
/// without its name. Nothing is written before all is done, and writing takes no memory. See
/// docs/OUTPUT.md.
///
/// With words of no form, or of one that asks for no input, nothing is read. Of a system text no more than 4,194,305 bytes are
/// read, and one of more than 4,194,304 bytes is refused; of a snapshot no more than 8,388,609, and one of more than 8,388,608 is refused.
///
/// With `run SLOTS` and `run SLOTS free` it may never return, since workers wait for each other; with all other words it does what
/// `top_plain` does, which returns.
///
/// The statuses, of which `Status::number` gives the number; the definition of each form says which of `Done`,
/// `SystemFault`, `SourceFault` and `ScriptFault` it answers, and `statuses_of_systems`, `statuses_of_snapshots`, `statuses_of_routes` and
/// `statuses_of_pins` of answer_model where:
///
/// - `Done`: the text of the answer was written, as the trace or the rest of it, the text of `play`, of `make`, of `check` or of `routes`, a
///   wave or a pin script, or the bytes of a snapshot.
/// - `Memory`: memory was wanting. Nothing was written.
/// - `Usage`: the words are of no form. The usage line was written.
/// - `SystemFault`, `SourceFault`, `ScriptFault`: the frame, a node's source, or the pin script is refused, each where
///   those before it are accepted. `SystemFault` too: a snapshot is refused, whatever is wrong in it, or its slot is out of range, or ranks or
///   a wave text are refused. The line of the refusal was written.
/// - `ReadFault`: a read failed, so the source's count of faults has risen. Nothing was written.
/// - `WriteFault`: a write failed, so the sink's count of faults has risen. A front of what was to be written, or
///   nothing, was written.
pub fn top<R: Threads + Wait + Sync, S: Source, K: Sink, G: Gate>(
    rt: &R,
    alloc: Global,
    words: &[String],
    source: &mut S,
    sink: &mut K,
    gate: &G,
) -> Status
    // What is written and what is read.
    ensures answered { IsWhole result → Answers (asked_of (map string_bytes words.now)) (S.left source.old) (K.written sink.old) (K.written sink.new) result }
    ensures part { result ≡ Status.WriteFault → AnswersInPart (asked_of (map string_bytes words.now)) (S.left source.old) (K.written sink.old) (K.written sink.new) }
    ensures silent { IsSilent result → sink.new ≡ sink.old }
    ensures left { IsRead result → TookInput (asked_of (map string_bytes words.now)) (S.left source.old) (S.left source.new) }
    ensures reads { ReadsAtMost S.read_gives (most_reads (form_of_words (map string_bytes words.now))) source.old source.new }

    // Where reads and writes fail.
    ensures read_fault { result ≡ Status.ReadFault → HasRisen (S.faults source.old) (S.faults source.new) }
    ensures read_fault_shown { S.faults source.old < S.faults source.new → result ≡ Status.ReadFault }
    ensures write_fault { result ≡ Status.WriteFault → HasRisen (K.faults sink.old) (K.faults sink.new) }
    ensures write_fault_shown { K.faults sink.old < K.faults sink.new → result ≡ Status.WriteFault }

    // When each of the other statuses comes.
    ensures usage { result ≡ Status.Usage → form_of_words (map string_bytes words.now) ≡ None }
    ensures usage_given { form_of_words (map string_bytes words.now) ≡ None → (result ≡ Status.Usage) ⊎ (result ≡ Status.WriteFault) }
    ensures reads_nothing { asks_for_input (form_of_words (map string_bytes words.now)) ≡ false → source.new ≡ source.old }
    ensures system_fault { result ≡ Status.SystemFault → IsAnswerStatus Status.SystemFault (asked_of (map string_bytes words.now)) (S.left source.old) }
    ensures system_fault_given { IsWhole result → EndsWhere Status.SystemFault (asked_of (map string_bytes words.now)) (S.left source.old) result }
    ensures source_fault { result ≡ Status.SourceFault → IsAnswerStatus Status.SourceFault (asked_of (map string_bytes words.now)) (S.left source.old) }
    ensures source_fault_given { IsWhole result → EndsWhere Status.SourceFault (asked_of (map string_bytes words.now)) (S.left source.old) result }
    ensures script_fault { result ≡ Status.ScriptFault → IsAnswerStatus Status.ScriptFault (asked_of (map string_bytes words.now)) (S.left source.old) }
    ensures script_fault_given { IsWhole result → EndsWhere Status.ScriptFault (asked_of (map string_bytes words.now)) (S.left source.old) result }
    ensures done { result ≡ Status.Done → IsAnswerStatus Status.Done (asked_of (map string_bytes words.now)) (S.left source.old) }
    ensures done_given { result ≢ Status.Memory → IsCalm (S.faults source.old) (S.faults source.new) → IsCalm (K.faults sink.old) (K.faults sink.new)
        → EndsWhere Status.Done (asked_of (map string_bytes words.now)) (S.left source.old) result }
{
    match form_of_words(words) {
        Some(Form::Free(slots)) => respond::<Xs1, _, _, _>(
            alloc,
            words,
            asks_of(Form::Free(slots)),
            source,
            sink,
            |input| run::answer_freely(rt, alloc, slots, input, gate),
        ),
        form => respond_plainly(rt, alloc, words, form, source, sink, gate),
    }
}

/// What `top` does with words of a form that waits for nobody, and with words of no form: with all but `run SLOTS` and
/// `run SLOTS free`. It returns. With `run SLOTS rounds` each node passes `gate` in each round, in a thread where one can be made; with
/// the other words nothing passes it, and no thread is made. See docs/OUTPUT.md.
///
/// The statuses are those of `top`, and each comes as it does there: the fields of `Calls` are the clauses of `top`.
pub fn top_plain<R: Threads + Sync, S: Source, K: Sink, G: Gate>(
    rt: &R,
    alloc: Global,
    words: &[String],
    source: &mut S,
    sink: &mut K,
    gate: &G,
) -> Status
    requires plain { form_may_wait (form_of_words (map string_bytes words.now)) ≡ false }
    ensures { Calls S.left S.faults S.read_gives K.written K.faults (asked_of (map string_bytes words.now)) source.old source.new sink.old sink.new result }
{
    respond_plainly(rt, alloc, words, form_of_words(words), source, sink, gate)
}

// What words do that have this form, which waits for nobody, or none.
fn respond_plainly<R: Threads + Sync, S: Source, K: Sink, G: Gate>(
    rt: &R,
    alloc: Global,
    words: &[String],
    form: Option<Form>,
    source: &mut S,
    sink: &mut K,
    gate: &G,
) -> Status
    requires of_words { form ≡ form_of_words (map string_bytes words.now) }
    requires plain { form_may_wait form ≡ false }
    ensures { Calls S.left S.faults S.read_gives K.written K.faults (asked_of (map string_bytes words.now)) source.old source.new sink.old sink.new result }
{
    let Some(form) = form else {
        return refuse::<Xs1, _, _>(words, source, sink, usage_line());
    };
    respond::<Xs1, _, _, _>(
        alloc,
        words,
        asks_of(form),
        source,
        sink,
        |input: &[u8]| -> Result<Answer, AllocError>
            requires { may_wait form ≡ false }
            ensures { IfOk result (λ answer. answer ≡ answer_by form input.now) }
        { answer_plainly(rt, alloc, form, input, gate) },
    )
}

// What a form that waits for nobody answers to the bytes of the input: each has its module. The error is want of memory.
fn answer_plainly<R: Threads + Sync, G: Gate>(
    rt: &R,
    alloc: Global,
    form: Form,
    input: &[u8],
    gate: &G,
) -> Result<Answer, AllocError>
    requires { may_wait form ≡ false }
    ensures { IfOk result (λ answer. answer ≡ answer_by form input.now) }
{
    match form {
        Form::Free(_) => unreachable!(),
        Form::Serial(slots) => run::answer_serially(alloc, slots, input),
        Form::Rounds(slots) => run::answer_in_rounds(rt, alloc, slots, input, gate),
        Form::Play(slots) => play::answer(alloc, slots, input),
        Form::Make(number) => make::answer(alloc, number),
        Form::Check => check::answer(alloc, input),
        Form::Save(slots) => save::answer(alloc, slots, input),
        Form::Resume(slots) => resume::answer(alloc, slots, input),
        Form::Routes => routes::answer(alloc, input),
        Form::Wave(slots) => wave::answer(alloc, slots, input),
        Form::PinsOf(node) => pins::answer(alloc, node, input),
    }
}
