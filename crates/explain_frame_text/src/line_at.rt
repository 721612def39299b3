//! A line of a system text by its number.
ghost use Rattle.std.specs.Prelude.{◌≡◌, ◌≤◌, ◌<◌, ◌^◌, length, option_map, IfSome};
ghost use Rattle.xs_text.specs.Lines.{lines_of};
ghost use Rattle.explain_frame_model.specs.FrameTold.{line_at};
ghost use Rattle.explain_frame_text.specs.Kept.{line_of_kept};

use xs_text::Lines;

/// A line: its number, from 1, the part of the text that the lines before it are, and its bytes.
#[derive(Clone, Copy)]
pub(crate) struct LineAt<'a> {
    pub(crate) number: u32,
    pub(crate) before: &'a [u8],
    pub(crate) bytes: &'a [u8],
}

/// The line with a number, None where no line has it.
pub(crate) fn line_at(text: &[u8], number: u32) -> Option<LineAt<'_>>
    requires { length text.now < 2 ^ 32 }
    ensures line { option_map line_of_kept result ≡ line_at (lines_of text.now) number }
    ensures part { IfSome result (λ at. length at.before.now ≤ length text.now) }
{
    if number == 0 {
        return None;
    }
    let mut lines = Lines::new(text);
    while let Some(line) = lines.next_line() {
        if line.number == number {
            return Some(LineAt {
                number,
                before: &text[..line.from],
                bytes: &text[line.from..line.to],
            });
        }
    }
    None
}
