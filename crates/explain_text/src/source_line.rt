//! `SourceLine`, a line of a source.
ghost use Rattle.std.specs.Prelude.{◌≡◌, ◌≤◌, ◌<◌, ◌+◌, ◌-◌, ◌^◌, [], length, get_or};
ghost use Rattle.xs_text.specs.Lines.{lines_of};

use placed_tokens::bytes_of_line;

/// A line of a source: the source, the number that its first line has in the whole text, the number of the line in the source, from 1, and its bytes.
#[derive(Clone, Copy)]
pub(crate) struct SourceLine<'a> {
    pub(crate) source: &'a [u8],
    pub(crate) first: u32,
    pub(crate) line: u32,
    pub(crate) bytes: &'a [u8],
    ghost from_one: { 1 ≤ line },
    ghost in_text: { first + length source.now < 2 ^ 32 },
    ghost in_source: { line ≤ length source.now },
    ghost own: { bytes.now ≡ get_or (lines_of source.now) (line - 1) [] },
}

impl<'a> SourceLine<'a> {
    /// Line `line` of a source that has at least as many bytes, and lines.
    pub(crate) fn new(source: &'a [u8], first: u32, line: u32) -> SourceLine<'a>
        requires from_one { 1 ≤ line }
        requires in_text { first + length source.now < 2 ^ 32 }
        requires in_source { line ≤ length source.now }
        ensures source { result.source.now ≡ source.now }
        ensures first { result.first ≡ first }
        ensures line { result.line ≡ line }
    {
        SourceLine {
            source,
            first,
            line,
            bytes: bytes_of_line(source, line),
        }
    }
}
