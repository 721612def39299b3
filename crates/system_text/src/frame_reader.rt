ghost use Rattle.std.specs.Prelude.{◌≡◌, ◌≤◌, ◌+◌, ◌∷◌, [], false, not, length, IsErrOf};
ghost use Rattle.xs_text.specs.Lines.{lines_of, bytes_left, line_bytes};
ghost use Rattle.system_model.specs.Frame.{framed, frame_from, nothing_given, have_no_words, at_the_end, given_with};
ghost use Rattle.system_text.specs.Judged.{said_by};
ghost use Rattle.system_text.specs.Ranges.{IsShortSource};
ghost use Rattle.system_text.specs.Reads.{ReadsFrame, ReadsLine, frame_of_rest};
ghost use Rattle.system_text.specs.Sections.{IsTextKind, section_of, with_reading};
ghost use Rattle.system_text.specs.Wants.{HasGoodEnd, IsKept, MayWant};
ghost use Rattle.system_text.specs.declared.system_error.SystemError.TheVariants as errors;

use crate::frame::{Frame, Said, SectionText};
use crate::section::read_section;
use crate::system_error::{SystemError, refusal};
use crate::words::is_empty;
use std::alloc::Global;
use system_model::{FrameLine, SectionKind, SysKind};
use xs_text::{Line, Lines, all_allowed};

// The frame of a text. Memory may be wanting only where a line has words.
pub fn read_frame<'a>(alloc: Global, text: &'a [u8]) -> Result<Frame<'a>, SystemError>
    requires { IsShortSource text.now }
    ensures read { ReadsFrame (framed (lines_of text.now)) result }
    ensures memory { IsErrOf result errors.Memory → have_no_words (lines_of text.now) ≡ false }
{
    if has_words(text) {
        read_lines(alloc, text)
    } else {
        Err(refusal(1, SysKind::FirstLine))
    }
}

// Whether a line has words.
fn has_words(text: &[u8]) -> bool
    requires { IsShortSource text.now }
    ensures { result ≡ not (have_no_words (lines_of text.now)) }
{
    let mut lines = Lines::new(text);
    while let Some(line) = lines.next_line() {
        if !is_empty(&text[line.from..line.to]) {
            return true;
        }
    }
    false
}

// The frame of a text in which a line has words.
fn read_lines<'a>(alloc: Global, text: &'a [u8]) -> Result<Frame<'a>, SystemError>
    requires { IsShortSource text.now }
    ensures { ReadsFrame (frame_from 1 nothing_given (lines_of text.now)) result }
{
    let mut lines = Lines::new(text);
    let mut frame = Frame::new(alloc);
    while let Some(line) = lines.next_line() {
        match read_line(text, line, &mut lines, &mut frame) {
            Ok(()) => {}
            Err(error) => return Err(error),
        }
    }
    whole(frame)
}

// Adds what a line gives, with the source or the script that it may begin. Memory may be wanting only where the line has no
// fault and something is kept of it.
fn read_line<'a>(
    text: &'a [u8],
    line: Line,
    lines: &mut Lines,
    frame: &mut Frame<'a>,
) -> Result<(), SystemError>
    requires same_text { lines.old.text ≡ text.now }
    requires short { IsShortSource text.now }
    requires ordered { line.from ≤ line.to }
    requires in_text { line.to ≤ length text.now }
    requires numbered { lines.old.number ≡ line.number }
    ensures read { ReadsLine (frame_from line.number frame.old (line_bytes text.now line ∷ lines_of (bytes_left lines.old))) (frame_of_rest lines.new frame.new) result }
    ensures memory { IsErrOf result errors.Memory → MayWant frame.old (line_bytes text.now line) (lines_of (bytes_left lines.old)) }
    ensures same_text { lines.new.text ≡ lines.old.text }
    ensures onward { lines.old.at ≤ lines.new.at }
{
    match frame.judge(&text[line.from..line.to]) {
        Err(kind) => Err(refusal(line.number, kind)),
        Ok(said) => read_said(text, line.number, said, lines, frame),
    }
}

// The same of a line with a number by what it says.
fn read_said<'a>(
    text: &'a [u8],
    number: u32,
    said: Said,
    lines: &mut Lines,
    frame: &mut Frame<'a>,
) -> Result<(), SystemError>
    requires same_text { lines.old.text ≡ text.now }
    requires short { IsShortSource text.now }
    ensures read { ReadsLine (frame_of_rest lines.old (given_with number [] (said_by said) frame.old)) (frame_of_rest lines.new frame.new) result }
    ensures memory { IsErrOf result errors.Memory → IsKept (lines_of (bytes_left lines.old)) (said_by said) }
    ensures same_text { lines.new.text ≡ lines.old.text }
    ensures onward { lines.old.at ≤ lines.new.at }
{
    match said {
        Said::Form(FrameLine::Section(SectionKind::Source(node))) => {
            add_section(text, SectionKind::Source(node), number, lines, frame)
        }
        Said::Form(FrameLine::Section(SectionKind::Pins)) => {
            add_section(text, SectionKind::Pins, number, lines, frame)
        }
        _ => {
            frame.add(number, said)?;
            Ok(())
        }
    }
}

// Adds the source or the script that the line with a number begins.
fn add_section<'a>(
    text: &'a [u8],
    kind: SectionKind,
    first: u32,
    lines: &mut Lines,
    frame: &mut Frame<'a>,
) -> Result<(), SystemError>
    requires same_text { lines.old.text ≡ text.now }
    requires short { IsShortSource text.now }
    requires text { IsTextKind kind }
    ensures read { ReadsLine (frame_of_rest lines.old (with_reading kind first frame.old)) (frame_of_rest lines.new frame.new) result }
    ensures memory { IsErrOf result errors.Memory → HasGoodEnd (section_of (lines_of (bytes_left lines.old))) }
    ensures same_text { lines.new.text ≡ lines.old.text }
    ensures onward { lines.old.at ≤ lines.new.at }
{
    let Some(section) = read_section(text, lines) else {
        return Err(refusal(first, SysKind::SectionNotEnded));
    };
    if !all_allowed(&text[section.end.from..section.end.to]) {
        return Err(refusal(section.end.number, SysKind::BadLine));
    }
    frame.add_section(SectionText {
        kind,
        line: first,
        text: section.text,
    })?;
    Ok(())
}

// The frame at the end of the text, if the section `play` has ended and each node has a source. It takes no memory.
fn whole(frame: Frame) -> Result<Frame, SystemError>
    ensures read { ReadsFrame (at_the_end frame.entry frame.entry.reading) result }
    ensures memory { ¬ IsErrOf result errors.Memory }
{
    if let Some(line) = frame.unended() {
        return Err(refusal(line, SysKind::SectionNotEnded));
    }
    match frame.without_source() {
        Some(line) => Err(refusal(line, SysKind::NodeWithoutSource)),
        None => Ok(frame),
    }
}
