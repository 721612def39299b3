//! What words do, whatever answers to them.
ghost use Rattle.std.specs.Prelude.{ℕ, ◌≡◌, List, Result, IfOk, map, string_bytes};
ghost use Rattle.std.specs.Fn.{FnOnceReturnsAt};
ghost use Rattle.program_calls.specs.Asked.{AsksFor, IsCoherent};
ghost use Rattle.program_calls.specs.Call.{Finishes, IsWhole};
ghost use Rattle.program_calls.specs.Calls.{Calls};

use crate::Program;
use crate::input::{ReadError, read_for};
use crate::output::write_all;
use answer_model::{Answer, Status};
use std::alloc::{AllocError, Global};
use xs_edge::{Sink, Source};

/// What words of a form do: at most so many bytes of the input are read, or nothing of it where it isn't asked for, and what is answered to
/// them is written. `answer` is what answers to them; its error is want of memory. Nothing is written before it has answered, and writing
/// takes no memory. The fields of `Calls` say when each status comes.
pub fn respond<P: Program, S: Source, K: Sink, F: FnOnce(&[u8]) -> Result<Answer, AllocError>>(
    alloc: Global,
    words: &[String],
    asks: Option<usize>,
    source: &mut S,
    sink: &mut K,
    answer: F,
) -> Status
    requires coherent { IsCoherent (P.asked (map string_bytes words.now)) }
    requires has_form { ¬ (P.asked (map string_bytes words.now)).no_form }
    requires asks { AsksFor (P.asked (map string_bytes words.now)) asks }
    requires always { F.IsAlwaysCallable answer }
    requires answers { (input : List ℕ) (given : Result Answer AllocError) → FnOnceReturnsAt F.FnOnce answer input given
        → IfOk given (λ a. a ≡ (P.asked (map string_bytes words.now)).answer input) }
    ensures { Calls S.left S.faults S.read_gives K.written K.faults (P.asked (map string_bytes words.now)) source.old source.new sink.old sink.new result }
{
    let input = match read_for(alloc, asks, source) {
        Ok(input) => input,
        Err(ReadError::Failed) => return Status::ReadFault,
        Err(ReadError::Memory) => return Status::Memory,
    };
    match answer_with::<P, F>(answer, words, &input) {
        Ok(answer) => finish(sink, answer.text.bytes(), answer.status),
        Err(AllocError) => Status::Memory,
    }
}

/// What words of no form do: the usage line is written. Nothing is read, and no memory is taken. The fields of `Calls` say when each status
/// comes.
pub fn refuse<P: Program, S: Source, K: Sink>(
    words: &[String],
    source: &S,
    sink: &mut K,
    usage: &[u8],
) -> Status
    requires coherent { IsCoherent (P.asked (map string_bytes words.now)) }
    requires no_form { (P.asked (map string_bytes words.now)).no_form }
    requires line { usage.now ≡ (P.asked (map string_bytes words.now)).usage }
    ensures { Calls S.left S.faults S.read_gives K.written K.faults (P.asked (map string_bytes words.now)) source.now source.now sink.old sink.new result }
{
    let _ = source;
    finish(sink, usage, Status::Usage)
}

// What is answered to the bytes of the input is what is to be answered to the words. The error is want of memory.
fn answer_with<P: Program, F: FnOnce(&[u8]) -> Result<Answer, AllocError>>(
    answer: F,
    words: &[String],
    input: &[u8],
) -> Result<Answer, AllocError>
    requires always { F.IsAlwaysCallable answer }
    requires answers { (input : List ℕ) (given : Result Answer AllocError) → FnOnceReturnsAt F.FnOnce answer input given
        → IfOk given (λ a. a ≡ (P.asked (map string_bytes words.now)).answer input) }
    ensures { IfOk result (λ a. a ≡ (P.asked (map string_bytes words.now)).answer input.now) }
{
    answer(input)
}

// Writes the text whole, and gives the status that the program ends with.
fn finish<K: Sink>(sink: &mut K, text: &[u8], status: Status) -> Status
    requires { IsWhole status }
    ensures { Finishes (K.written sink.old) (K.written sink.new) (K.faults sink.old) (K.faults sink.new) text.now status result }
{
    match write_all(sink, text) {
        Ok(()) => status,
        Err(_) => Status::WriteFault,
    }
}
