//! All that is told of a faulty line of the frame.
ghost use Rattle.std.specs.Prelude.{◌≡◌, ◌==◌, ◌<◌, ◌^◌, ◌++◌, length, OnOk};
ghost use Rattle.xs_text.specs.Lines.{lines_of};
ghost use Rattle.explain_model.specs.Words.{words_left, placed_words};
ghost use Rattle.explain_frame_text.specs.LineWords.{word_of};
ghost use Rattle.explain_frame_model.specs.FrameWords.{word_at, bytes_at};
ghost use Rattle.explain_frame_model.specs.FrameTold.{word_line_at, bad_line, line_told, frame_told};
ghost use Rattle.explain_frame_text.specs.Kept.{faulty_of_kept, words_told};

use crate::faulty_line::FaultyLine;
use crate::line_at::line_at;
use crate::line_words::{LineWord, no_word, words_of};
use crate::meant::append_meant;
use crate::spots::faulty_word;
use crate::word_lines::append_word_line;
use frame_lines::read_before;
use marked_lines::{append_accepted, append_bad_byte};
use placed_tokens::next_word_at;
use std::alloc::{AllocError, Global};
use system_model::SysKind;
use xs_base::Text;
use xs_text::all_allowed;

// Of a line that has no form. The error is want of memory, here and below.
#[tactic(auto, unfolding(explain_frame_model::specs::FrameTold::line_told))]
fn tell_form(alloc: Global, out: &mut Text, at: &FaultyLine) -> Result<(), AllocError>
    ensures first { OnOk result (out.new ≡ out.old ++ line_told SysKind.FirstLine (faulty_of_kept at.now)) }
    ensures range { OnOk result (out.new ≡ out.old ++ line_told SysKind.NumberOutOfRange (faulty_of_kept at.now)) }
{
    let spot = at.form_spot(alloc)?;
    at.append_quote(out, spot.at)?;
    append_accepted(out, &spot.wants)
}

// The first word of a line from a place on.
#[tactic(auto, using(crate::proofs::Marks::none_beyond))]
fn word_from(line: &[u8], place: usize) -> LineWord<'_>
    ensures { word_of result ≡ word_at (words_left line.now place) 0 }
{
    if place > line.len() {
        return no_word();
    }
    match next_word_at(line, place) {
        None => no_word(),
        Some(word) => LineWord {
            at: word.at,
            bytes: word.bytes,
        },
    }
}

// The bytes of that word.
fn bytes_from(line: &[u8], place: usize) -> &[u8]
    ensures { result.now ≡ bytes_at (words_left line.now place) 0 }
{
    word_from(line, place).bytes
}

// Whether the first word of a line stands at a place.
fn is_first_at(line: &[u8], place: usize) -> bool
    ensures { result ≡ ((word_at (placed_words line.now) 0).at == place) }
{
    word_from(line, 0).at == place
}

// What is meant by a word with which no form goes on.
fn append_word_line_at(
    alloc: Global,
    out: &mut Text,
    at: &FaultyLine,
    place: usize,
) -> Result<(), AllocError>
    ensures { OnOk result (out.new ≡ out.old ++ word_line_at (faulty_of_kept at.now) place) }
{
    append_word_line(
        alloc,
        out,
        at.inside,
        at.edition(),
        bytes_from(at.bytes, place),
        is_first_at(at.bytes, place),
    )
}

// What is meant by a line that has no form, or a byte that a text may not hold.
fn append_bad_line(alloc: Global, out: &mut Text, at: &FaultyLine) -> Result<(), AllocError>
    ensures { OnOk result (out.new ≡ out.old ++ bad_line (faulty_of_kept at.now)) }
{
    if all_allowed(at.bytes) {
        let spot = at.form_spot(alloc)?;
        return append_word_line_at(alloc, out, at, spot.at);
    }
    let b = match at.bytes.get(at.allowed_length()) {
        None => 0,
        Some(b) => *b,
    };
    append_bad_byte(out, b)
}

// Of such a line.
#[tactic(auto, unfolding(explain_frame_model::specs::FrameTold::line_told))]
fn tell_bad(alloc: Global, out: &mut Text, at: &FaultyLine) -> Result<(), AllocError>
    ensures { OnOk result (out.new ≡ out.old ++ line_told SysKind.BadLine (faulty_of_kept at.now)) }
{
    let spot = at.bad_spot(alloc)?;
    at.append_quote(out, spot.at)?;
    append_accepted(out, &spot.wants)?;
    append_bad_line(alloc, out, at)
}

// Of a line whose form is good.
fn tell_words(
    alloc: Global,
    out: &mut Text,
    kind: SysKind,
    at: &FaultyLine,
) -> Result<(), AllocError>
    ensures { OnOk result (out.new ≡ out.old ++ words_told kind (faulty_of_kept at.now)) }
{
    let words = words_of(alloc, at.bytes)?;
    let word = faulty_word(kind, &at.lines, &words);
    at.append_quote(out, word.at)?;
    append_meant(alloc, out, kind, &at.lines, &words)
}

#[tactic(auto, unfolding(explain_frame_model::specs::FrameTold::line_told))]
fn tell(alloc: Global, out: &mut Text, kind: SysKind, at: &FaultyLine) -> Result<(), AllocError>
    ensures { OnOk result (out.new ≡ out.old ++ line_told kind (faulty_of_kept at.now)) }
{
    match kind {
        SysKind::FirstLine | SysKind::NumberOutOfRange => tell_form(alloc, out, at),
        SysKind::BadLine => tell_bad(alloc, out, at),
        _ => tell_words(alloc, out, kind, at),
    }
}

/// Tells of a line of a system text, by its number from 1, of which the kind is that of its fault: the line as it stands, a mark under the place at
/// which it is faulty, what may stand there, and what is meant. Where no line has the number nothing is told. The error is want of memory. See
/// docs/LOOK.md.
#[tactic(auto, unfolding(explain_frame_model::specs::FrameTold::frame_told))]
pub fn append_frame_told(
    alloc: Global,
    out: &mut Text,
    text: &[u8],
    line: u32,
    kind: SysKind,
) -> Result<(), AllocError>
    requires { length text.now < 2 ^ 32 }
    ensures { OnOk result (out.new ≡ out.old ++ frame_told kind (lines_of text.now) line) }
{
    let Some(at) = line_at(text, line) else {
        return Ok(());
    };
    let before = read_before(alloc, at.before)?;
    let faulty = FaultyLine {
        number: at.number,
        bytes: at.bytes,
        front: at.before,
        lines: before.lines,
        inside: before.inside,
    };
    tell(alloc, out, kind, &faulty)
}
