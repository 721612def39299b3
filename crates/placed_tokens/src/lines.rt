//! The lines of a text by their numbers.
ghost use Rattle.std.specs.Prelude.{◌≡◌, ◌≤◌, ◌<◌, ◌-◌, ◌^◌, [], length, get_or};
ghost use Rattle.xs_text.specs.Lines.{lines_of};

use xs_text::Lines;

/// The bytes of the line with a number, from 1, none where there is no such line. See docs/LOOK.md.
pub fn bytes_of_line(text: &[u8], number: u32) -> &[u8]
    requires from_one { 1 ≤ number }
    requires small { length text.now < 2 ^ 32 }
    ensures { result.now ≡ get_or (lines_of text.now) (number - 1) [] }
{
    let mut lines = Lines::new(text);
    while let Some(line) = lines.next_line() {
        if line.number == number {
            return &text[line.from..line.to];
        }
    }
    b""
}
