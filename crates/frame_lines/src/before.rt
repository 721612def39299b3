//! What stands before a line of a system text.
ghost use Rattle.std.specs.Prelude.{ℕ, List, ◌≡◌, ◌<◌, ◌^◌, ◌++◌, length, IfOk, OnOk};
ghost use Rattle.xs_text.specs.Lines.{lines_of};
ghost use Rattle.xs_text.specs.Words.{words_of_line};
ghost use Rattle.system_model.specs.FrameLines.{edition_of_word};
ghost use Rattle.explain_frame_model.specs.FrameBefore as model;
ghost use Rattle.explain_frame_model.specs.FrameBefore.{put_line, inside_of, frame_lines, edition_of};

use crate::earlier_line::{EarlierLine, earlier_line};
use crate::openings::inside_after;
use explain_frame_model::Inside;
use std::alloc::{AllocError, Global};
use xs_instructions::same_name;
use xs_text::Lines;

/// The lines of the frame that stand before a line of a system text, and what the line is read as. See docs/LOOK.md.
#[derive(Drop)]
pub struct Before<'a> {
    pub lines: Vec<EarlierLine<'a>>,
    pub inside: Inside,
}

// Keeps a line, where it has words and stands outside of the sections. The error is want of memory.
fn keep_line<'a>(
    kept: &mut Vec<EarlierLine<'a>>,
    inside: Inside,
    number: u32,
    line: &'a [u8],
) -> Result<(), AllocError>
    ensures { OnOk result ((after : List model.EarlierLine) → kept.new.items ++ after ≡ kept.old.items ++ put_line inside number (words_of_line line.now) after) }
{
    if let Some(earlier) = earlier_line(inside, number, line) {
        kept.push(earlier)?;
    }
    Ok(())
}

/// What stands before the line that comes after the text, which is a front of a system text. The error is want of memory. See docs/LOOK.md.
pub fn read_before(alloc: Global, text: &[u8]) -> Result<Before<'_>, AllocError>
    requires { length text.now < 2 ^ 32 }
    ensures lines { IfOk result (λ before. before.lines.items ≡ frame_lines (lines_of text.now)) }
    ensures inside { IfOk result (λ before. before.inside ≡ inside_of (lines_of text.now)) }
{
    let mut lines = Lines::new(text);
    let mut kept = Vec::new(alloc);
    let mut inside = Inside::Frame;
    while let Some(line) = lines.next_line() {
        let bytes = &text[line.from..line.to];
        keep_line(&mut kept, inside, line.number, bytes)?;
        inside = inside_after(inside, bytes);
    }
    Ok(Before {
        lines: kept,
        inside,
    })
}

// The edition that a word gives.
fn edition_of_word(word: &[u8]) -> Option<u8>
    ensures { result ≡ edition_of_word word.now }
{
    if same_name(b"1", word) {
        Some(1)
    } else if same_name(b"2", word) {
        Some(2)
    } else {
        None
    }
}

/// The edition of a system text, which the first line of its frame gives: 1, 2, or None where it gives neither or there is none. See docs/SYSTEM_TEXT.md.
pub fn edition_of(lines: &[EarlierLine]) -> Option<u8>
    ensures { result ≡ edition_of lines.now }
{
    match lines {
        [] => None,
        [line, ..] => edition_of_word(line.second),
    }
}
