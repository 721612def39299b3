ghost use Rattle.std.specs.Prelude.{◌≡◌, ◌∷◌, ◌&&◌, [], nat_le};
ghost use Rattle.xs_text.specs.Words.{words_of_line};
ghost use Rattle.system_model.specs.FrameLines.{play_line, step_end, is_between};
ghost use Rattle.system_text.specs.Forms.{ranged};
ghost use Rattle.system_text.specs.Steps.{stepped, named};
ghost use Rattle.system_text.specs.LineWords.{bytes_of};

use crate::frame_lines::{any_number, between, end_name, step_end, up_to};
use crate::words::{Word, line_words};
use system_model::{EndName, FrameLine, PlayLine, SysKind};
use xs_instructions::same_name;

// A run is over at most so many slots.
const MOST_SLOTS: u32 = 1_000_000;

// A line of the section `play`. The error is that it is no step, or else that a number is out of range.
pub fn step_line(line: &[u8]) -> Result<FrameLine, SysKind>
    ensures { result ≡ stepped (play_line (words_of_line line.now)) }
{
    match line_words(line) {
        Ok(words) => step_of(&words),
        Err(kind) => Err(kind),
    }
}

// The same by the words.
fn step_of(words: &[Word]) -> Result<FrameLine, SysKind>
    ensures { result ≡ stepped (play_line (bytes_of words.now)) }
{
    match words {
        [name, word] => short_step(name.bytes, word.bytes),
        [name, number, count] => long_run(name.bytes, number.bytes, count.bytes),
        _ => Err(SysKind::BadLine),
    }
}

// A step of two words: `take N:E`, `send N:E` and `run N`.
fn short_step(name: &[u8], word: &[u8]) -> Result<FrameLine, SysKind>
    ensures { result ≡ stepped (play_line (name.now ∷ word.now ∷ [])) }
{
    if same_name(b"take", name) {
        Ok(FrameLine::Step(PlayLine::Take(named_end(word)?)))
    } else if same_name(b"send", name) {
        Ok(FrameLine::Step(PlayLine::Send(named_end(word)?)))
    } else if same_name(b"run", name) {
        run(any_number(word)?, 1)
    } else {
        Err(SysKind::BadLine)
    }
}

// `run N COUNT`.
fn long_run(name: &[u8], number: &[u8], count: &[u8]) -> Result<FrameLine, SysKind>
    ensures { result ≡ stepped (play_line (name.now ∷ number.now ∷ count.now ∷ [])) }
{
    if !same_name(b"run", name) {
        return Err(SysKind::BadLine);
    }
    run(any_number(number)?, any_number(count)?)
}

// A run of a node over so many slots, if both numbers are within their ranges.
fn run(node: u32, count: u32) -> Result<FrameLine, SysKind>
    ensures { result ≡ ranged (nat_le node 99 && is_between 1 1000000 count) (FrameLine.Step (PlayLine.Run node count)) }
{
    Ok(FrameLine::Step(PlayLine::Run {
        node: up_to(node, 99)? as u8,
        count: between(count, 1, MOST_SLOTS)?,
    }))
}

// The end that a word names.
fn named_end(word: &[u8]) -> Result<EndName, SysKind>
    ensures { result ≡ named (step_end word.now) }
{
    step_end(end_name(word)?)
}
