//! Where a section of a system text stands.
ghost use Rattle.std.specs.Prelude.{◌≡◌, ◌≤◌, ◌<◌, ◌^◌, length, option_map, IfSome};
ghost use Rattle.xs_text.specs.Lines.{lines_of};
ghost use Rattle.system_model.specs.Frame.{is_same_kind};
ghost use Rattle.explain_whole.specs.Opened.{opened_in};
ghost use Rattle.explain_answers.specs.Kept.{opened_of};

use crate::section::read_section;
use frame_lines::{Opening, is_end, opening_of};
use system_model::SectionKind;
use xs_text::Lines;

/// The lines of a section, and the number of the line that begins it.
#[derive(Clone, Copy)]
pub(crate) struct Opened<'a> {
    pub(crate) opening: u32,
    pub(crate) text: &'a [u8],
}

fn is_same_kind(a: SectionKind, b: SectionKind) -> bool
    ensures { result ≡ is_same_kind a b }
{
    match (a, b) {
        (SectionKind::Source(m), SectionKind::Source(n)) => m == n,
        (SectionKind::Pins, SectionKind::Pins) => true,
        (SectionKind::Play, SectionKind::Play) => true,
        _ => false,
    }
}

/// The first section of this kind in a text, None where there is none, or where no line ends it.
#[tactic(auto, unfolding(explain_whole::specs::Opened::opened_from))]
pub(crate) fn find_section(text: &[u8], kind: SectionKind) -> Option<Opened<'_>>
    requires { length text.now < 2 ^ 32 }
    ensures opened { option_map opened_of result ≡ opened_in kind (lines_of text.now) }
    ensures from_one { IfSome result (λ o. 1 ≤ o.opening) }
    ensures opening { IfSome result (λ o. o.opening ≤ length text.now) }
    ensures part { IfSome result (λ o. length o.text.now ≤ length text.now) }
{
    let mut lines = Lines::new(text);
    let mut inside = false;
    while let Some(line) = lines.next_line() {
        let bytes = &text[line.from..line.to];
        if inside {
            inside = !is_end(bytes);
        } else {
            match opening_of(bytes) {
                Opening::Nothing => {}
                Opening::Other => inside = true,
                Opening::Section(opened) => {
                    if is_same_kind(opened, kind) {
                        let section = read_section(text, &mut lines)?;
                        return Some(Opened {
                            opening: line.number,
                            text: section.text,
                        });
                    }
                    inside = true;
                }
            }
        }
    }
    None
}
