ghost use Rattle.std.specs.Prelude.{◌≡◌, ◌<◌, length, map, IfOk, OnErr, IfErr};
ghost use Rattle.xs_text.specs.Words.{words_of_line};
ghost use Rattle.system_model.specs.FrameLines.{edition_of_header, edition_of_word, is_end};
ghost use Rattle.system_model.specs.Frame.{is_empty};
ghost use Rattle.system_text.specs.LineWords.{bytes_of};

use arrayvec::ArrayVec;
use std::default::Default;
use system_model::SysKind;
use xs_instructions::same_name;
use xs_text::next_word;

// A line of the frame has at most so many words: `bit`, the node, the bit and eight link ends.
pub const MOST_WORDS: usize = 11;

// A word of a line.
#[derive(Clone, Copy)]
pub struct Word<'a> {
    pub bytes: &'a [u8],
}

impl<'a> Default for Word<'a> {
    fn default() -> Word<'a> {
        Word { bytes: b"" }
    }
}

// The words of a line, a bad line where they are too many for any form.
pub fn line_words<'a>(line: &'a [u8]) -> Result<ArrayVec<Word<'a>, MOST_WORDS>, SysKind>
    ensures words { IfOk result (λ words. bytes_of words.items ≡ words_of_line line.now) }
    ensures kind { IfErr result (λ kind. kind ≡ SysKind.BadLine) }
    ensures many { OnErr result (MOST_WORDS < length (words_of_line line.now)) }
{
    let mut words = ArrayVec::new();
    let mut left = line;
    while let Some((bytes, rest)) = next_word(left) {
        if words.is_full() {
            return Err(SysKind::BadLine);
        }
        words.push(Word { bytes });
        left = rest;
    }
    Ok(words)
}

// Whether the line has no words.
pub fn is_empty(line: &[u8]) -> bool
    ensures { result ≡ is_empty (words_of_line line.now) }
{
    next_word(line).is_none()
}

// The edition that a first line gives, which is `xs1 1` or `xs1 2`.
pub fn edition_of_header(line: &[u8]) -> Option<u8>
    ensures { result ≡ edition_of_header (words_of_line line.now) }
{
    let (name, rest) = next_word(line)?;
    let (edition, rest) = next_word(rest)?;
    if !is_empty(rest) {
        return None;
    }
    if same_name(b"xs1", name) {
        edition_of_word(edition)
    } else {
        None
    }
}

// The edition that a word gives, letter by letter.
fn edition_of_word(word: &[u8]) -> Option<u8>
    ensures { result ≡ edition_of_word word.now }
{
    if same_name(b"1", word) {
        Some(1)
    } else if same_name(b"2", word) {
        Some(2)
    } else {
        None
    }
}

// `end`
pub fn is_end(line: &[u8]) -> bool
    ensures { result ≡ is_end line.now }
{
    let Some((name, rest)) = next_word(line) else {
        return false;
    };
    same_name(b"end", name) && is_empty(rest)
}
