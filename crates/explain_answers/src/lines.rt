//! The lines of a text by their numbers.
ghost use Rattle.std.specs.Prelude.{◌≡◌, ◌≤◌, ◌<◌, ◌^◌, length};
ghost use Rattle.xs_text.specs.Lines.{lines_of};

use xs_text::Lines;

/// How many lines a text has.
pub(crate) fn count_lines(text: &[u8]) -> u32
    requires { length text.now < 2 ^ 32 }
    ensures count { result ≡ length (lines_of text.now) }
    ensures few { result ≤ length text.now }
{
    let mut lines = Lines::new(text);
    let mut count = 0;
    while let Some(line) = lines.next_line() {
        count = line.number;
    }
    count
}
