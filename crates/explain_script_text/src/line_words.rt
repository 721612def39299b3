//! The words of a line of a script.
ghost use Rattle.std.specs.Prelude.{◌≡◌, ◌≤◌, length};
ghost use Rattle.explain_model.specs.Words.{placed_words, words_left};
ghost use Rattle.placed_tokens.specs.Words.{word_of};
ghost use Rattle.explain_frame_model.specs.Script.{no_word, first_word, second_word, third_word, slot_pin_of};

use explain_frame_model::SlotPin;
use placed_tokens::{Word, next_word_at};
use word_forms::script_pin;
use xs_text::number;

// What stands for a word where there is none.
fn no_word() -> Word<'static>
    ensures word { word_of result ≡ no_word }
    ensures end { result.end ≡ 0 }
{
    Word {
        at: 0,
        end: 0,
        bytes: b"",
    }
}

// The first word from a place on.
fn word_from(line: &[u8], at: usize) -> Word<'_>
    requires { at ≤ length line.now }
    ensures word { word_of result ≡ first_word (words_left line.now at) }
    ensures within { result.end ≤ length line.now }
{
    match next_word_at(line, at) {
        None => no_word(),
        Some(word) => word,
    }
}

// The second word from a place on.
fn second_from(line: &[u8], at: usize) -> Word<'_>
    requires { at ≤ length line.now }
    ensures word { word_of result ≡ second_word (words_left line.now at) }
    ensures within { result.end ≤ length line.now }
{
    match next_word_at(line, at) {
        None => no_word(),
        Some(word) => word_from(line, word.end),
    }
}

/// The first word of a line: the slot.
pub(crate) fn first_word(line: &[u8]) -> Word<'_>
    ensures word { word_of result ≡ first_word (placed_words line.now) }
    ensures within { result.end ≤ length line.now }
{
    word_from(line, 0)
}

/// The second word of a line: the pin.
pub(crate) fn second_word(line: &[u8]) -> Word<'_>
    ensures word { word_of result ≡ second_word (placed_words line.now) }
    ensures within { result.end ≤ length line.now }
{
    second_from(line, 0)
}

/// The third word of a line: the value.
pub(crate) fn third_word(line: &[u8]) -> Word<'_>
    ensures word { word_of result ≡ third_word (placed_words line.now) }
    ensures within { result.end ≤ length line.now }
{
    match next_word_at(line, 0) {
        None => no_word(),
        Some(word) => second_from(line, word.end),
    }
}

/// The slot and the pin that a line gives.
pub(crate) fn slot_pin(line: &[u8]) -> Option<SlotPin>
    ensures { result ≡ slot_pin_of line.now }
{
    let slot = number(first_word(line).bytes, u32::MAX)?;
    let pin = script_pin(second_word(line).bytes)?;
    Some(SlotPin { slot, pin })
}
