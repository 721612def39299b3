//! The words of a line by their positions.
ghost use Rattle.std.specs.Prelude.{◌≡◌, map, drop, IfOk};
ghost use Rattle.explain_model.specs.Words.{placed_words};
ghost use Rattle.explain_frame_text.specs.LineWords.{word_of};
ghost use Rattle.explain_frame_model.specs.FrameWords.{no_word, word_at, begins};

use placed_tokens::next_word_at;
use std::alloc::{AllocError, Global};
use xs_instructions::same_name;

/// A word, and the place of its first byte in its line, from 0.
#[derive(Clone, Copy)]
pub(crate) struct LineWord<'a> {
    pub(crate) at: usize,
    pub(crate) bytes: &'a [u8],
}

/// All words of a line. The error is want of memory.
pub(crate) fn words_of(alloc: Global, line: &[u8]) -> Result<Vec<LineWord<'_>>, AllocError>
    ensures { IfOk result (λ words. map word_of words.items ≡ placed_words line.now) }
{
    let mut words = Vec::new(alloc);
    let mut at = 0;
    while let Some(word) = next_word_at(line, at) {
        words.push(LineWord {
            at: word.at,
            bytes: word.bytes,
        })?;
        at = word.end;
    }
    Ok(words)
}

/// What stands for a word where there is none.
pub(crate) fn no_word() -> LineWord<'static>
    ensures { word_of result ≡ no_word }
{
    LineWord { at: 0, bytes: b"" }
}

/// A word by its position, from 0.
pub(crate) fn word_at<'a>(words: &[LineWord<'a>], i: usize) -> LineWord<'a>
    ensures { word_of result ≡ word_at (map word_of words.now) i }
{
    match words.get(i) {
        None => no_word(),
        Some(word) => *word,
    }
}

/// Whether a line begins with this word.
pub(crate) fn begins(name: &[u8], words: &[LineWord]) -> bool
    ensures { result ≡ begins name.now (map word_of words.now) }
{
    same_name(name, word_at(words, 0).bytes)
}

/// The words from the fourth one on.
pub(crate) fn behind_three<'a, 'b>(words: &'b [LineWord<'a>]) -> &'b [LineWord<'a>]
    ensures { map word_of result.now ≡ drop 3 (map word_of words.now) }
{
    match words {
        [_, _, _, others @ ..] => others,
        _ => &[],
    }
}
