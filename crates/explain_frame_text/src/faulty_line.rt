//! A faulty line of a system text, with what stands before it.
ghost use Rattle.std.specs.Prelude.{◌≡◌};
ghost use Rattle.xs_text.specs.Lines.{lines_of};
ghost use Rattle.explain_frame_model.specs.FrameBefore.{frame_lines, inside_of};

use explain_frame_model::Inside;
use frame_lines::EarlierLine;

/// A faulty line: its number, from 1, its bytes, the part of the text before it, the lines of the frame there, and what the line is read as.
#[derive(Drop)]
pub(crate) struct FaultyLine<'a> {
    pub(crate) number: u32,
    pub(crate) bytes: &'a [u8],
    pub(crate) front: &'a [u8],
    pub(crate) lines: Vec<EarlierLine<'a>>,
    pub(crate) inside: Inside,
    ghost given: { lines.items ≡ frame_lines (lines_of front.now) },
    ghost stands: { inside ≡ inside_of (lines_of front.now) },
}
