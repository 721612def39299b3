//! Lines that begin a section, or end one.
ghost use Rattle.std.specs.Prelude.{◌≡◌, [], ◌∷◌};
ghost use Rattle.xs_text.specs.Words.{words_of_line};
ghost use Rattle.system_model.specs.FrameLines.{section_line, is_end};
ghost use Rattle.explain_frame_model.specs.FrameBefore.{inside_after};
ghost use Rattle.frame_lines.specs.Openings.{IsOpening};

use explain_frame_model::Inside;
use system_model::SectionKind;
use xs_instructions::same_name;
use xs_text::{is_plain_number, next_word, number};

/// What a line begins. See docs/SYSTEM_TEXT.md.
#[derive(Clone, Copy)]
pub enum Opening {
    Nothing,
    Section(SectionKind),
    /// The source of a node with a number that no node has.
    Other,
}

// By one word: `pins` or `play`.
#[tactic(auto, unfolding(system_model::specs::FrameLines::section_line))]
fn opening_of_one(name: &[u8]) -> Opening
    ensures { IsOpening (section_line (name.now ∷ [])) result }
{
    if same_name(b"pins", name) {
        Opening::Section(SectionKind::Pins)
    } else if same_name(b"play", name) {
        Opening::Section(SectionKind::Play)
    } else {
        Opening::Nothing
    }
}

// By two words: `source N`.
#[tactic(auto, unfolding(system_model::specs::FrameLines::section_line))]
fn opening_of_two(name: &[u8], word: &[u8]) -> Opening
    ensures { IsOpening (section_line (name.now ∷ word.now ∷ [])) result }
{
    if !same_name(b"source", name) {
        return Opening::Nothing;
    }
    if !is_plain_number(word) {
        return Opening::Nothing;
    }
    match number(word, 255) {
        Some(node) => Opening::Section(SectionKind::Source(node as u8)),
        None => Opening::Other,
    }
}

/// What a line outside of the sections begins, by its words. See docs/SYSTEM_TEXT.md.
#[tactic(auto, unfolding(system_model::specs::FrameLines::section_line))]
pub fn opening_of(line: &[u8]) -> Opening
    ensures { IsOpening (section_line (words_of_line line.now)) result }
{
    let Some((name, rest)) = next_word(line) else {
        return Opening::Nothing;
    };
    let Some((word, rest)) = next_word(rest) else {
        return opening_of_one(name);
    };
    if next_word(rest).is_some() {
        return Opening::Nothing;
    }
    opening_of_two(name, word)
}

/// Whether a line is `end`, which ends a section. See docs/SYSTEM_TEXT.md.
pub fn is_end(line: &[u8]) -> bool
    ensures { result ≡ is_end line.now }
{
    let Some((name, rest)) = next_word(line) else {
        return false;
    };
    same_name(b"end", name) && next_word(rest).is_none()
}

// What the next line is read as, after one outside of the sections.
fn inside_opened(line: &[u8]) -> Inside
    ensures { result ≡ inside_after Inside.Frame line.now }
{
    match opening_of(line) {
        Opening::Nothing => Inside::Frame,
        Opening::Section(SectionKind::Play) => Inside::Schedule,
        Opening::Section(SectionKind::Source(_)) | Opening::Section(SectionKind::Pins) =>
            Inside::Text,
        Opening::Other => Inside::Text,
    }
}

/// What the line after a line is read as.
pub(crate) fn inside_after(inside: Inside, line: &[u8]) -> Inside
    ensures { result ≡ inside_after inside line.now }
{
    match inside {
        Inside::Frame => inside_opened(line),
        Inside::Text | Inside::Schedule if is_end(line) => Inside::Frame,
        _ => inside,
    }
}
