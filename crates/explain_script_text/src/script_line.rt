//! `ScriptLine`, a line of a pin script.
ghost use Rattle.std.specs.Prelude.{◌≡◌, ◌≤◌, ◌<◌, ◌+◌, ◌-◌, ◌^◌, [], length, get_or};
ghost use Rattle.xs_text.specs.Lines.{lines_of};

use placed_tokens::bytes_of_line;

/// A line of a script: the script, the number that its first line has in the whole text, the number of the line in the script, from 1, and its bytes.
#[derive(Clone, Copy)]
pub(crate) struct ScriptLine<'a> {
    pub(crate) script: &'a [u8],
    pub(crate) first: u32,
    pub(crate) line: u32,
    pub(crate) bytes: &'a [u8],
    ghost from_one: { 1 ≤ line },
    ghost in_text: { first + length script.now < 2 ^ 32 },
    ghost in_script: { line ≤ length script.now },
    ghost own: { bytes.now ≡ get_or (lines_of script.now) (line - 1) [] },
}

impl<'a> ScriptLine<'a> {
    /// Line `line` of a script that has at least as many bytes, and lines.
    pub(crate) fn new(script: &'a [u8], first: u32, line: u32) -> ScriptLine<'a>
        requires from_one { 1 ≤ line }
        requires in_text { first + length script.now < 2 ^ 32 }
        requires in_script { line ≤ length script.now }
        ensures script { result.script.now ≡ script.now }
        ensures first { result.first ≡ first }
        ensures line { result.line ≡ line }
    {
        ScriptLine {
            script,
            first,
            line,
            bytes: bytes_of_line(script, line),
        }
    }
}
