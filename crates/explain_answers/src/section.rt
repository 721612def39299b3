//! The lines of a section.
ghost use Rattle.std.specs.Prelude.{◌≡◌, ◌≤◌, ◌+◌, length, option_map, IfSome};
ghost use Rattle.xs_text.specs.Lines.{lines_of, bytes_left, line_bytes};
ghost use Rattle.system_text.specs.Sections.{section_of};

use frame_lines::is_end;
use xs_text::{Line, Lines};

/// The part of a text that the lines of a section are, and the line that ends it.
#[derive(Clone, Copy)]
pub(crate) struct Section<'a> {
    pub(crate) text: &'a [u8],
    pub(crate) end: Line,
}

/// The section that begins here. The line that ends it is passed over. None where no line ends it.
#[tactic(auto, using(system_text::proofs::Sections::part_length))]
pub(crate) fn read_section<'a>(text: &'a [u8], lines: &mut Lines) -> Option<Section<'a>>
    requires { lines.old.text ≡ text.now }
    ensures section { option_map (λ s. record { lines = lines_of s.text.now; end = line_bytes text.now s.end; rest = lines_of (bytes_left lines.new) }) result ≡ section_of (lines_of (bytes_left lines.old)) }
    ensures part { IfSome result (λ s. length s.text.now ≤ length text.now) }
{
    let Some(first) = lines.next_line() else {
        return None;
    };
    let mut line = first;
    while !is_end(&text[line.from..line.to]) {
        let Some(next) = lines.next_line() else {
            return None;
        };
        line = next;
    }
    Some(Section {
        text: &text[first.from..line.from],
        end: line,
    })
}
