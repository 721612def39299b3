//! All that is told of a faulty line of a source.
ghost use Rattle.std.specs.Prelude.{◌≡◌, ◌≤◌, ◌<◌, ◌+◌, ◌^◌, ◌++◌, length, OnOk};
ghost use Rattle.xs_text.specs.Lines.{lines_of};
ghost use Rattle.explain_model.specs.Told.{source_told};

use crate::meant::append_meant;
use crate::source_line::SourceLine;
use marked_lines::{append_accepted, append_line, append_mark};
use source_model::AsmKind;
use std::alloc::{AllocError, Global};
use xs_base::Text;

/// Tells of line `line` of a source, counted from 1, where the first line of the source has the number `first` in the whole text, and the kind is
/// that of its fault: the line as it stands, a mark under the place at which it is faulty, what may stand there, and what is meant. The error is
/// want of memory. See docs/LOOK.md.
#[tactic(auto, unfolding(explain_model::specs::Told::source_told))]
pub fn append_told(
    alloc: Global,
    out: &mut Text,
    source: &[u8],
    first: u32,
    line: u32,
    kind: AsmKind,
) -> Result<(), AllocError>
    requires from_one { 1 ≤ line }
    requires in_text { first + length source.now < 2 ^ 32 }
    requires in_source { line ≤ length source.now }
    ensures { OnOk result (out.new ≡ out.old ++ source_told kind (record { first = first; lines = lines_of source.now; line = line })) }
{
    let at = SourceLine::new(source, first, line);
    let spot = at.spot(alloc, kind)?;
    append_line(out, at.number(), at.bytes)?;
    append_mark(out, at.number(), at.bytes, spot.at)?;
    append_accepted(out, &spot.wants)?;
    append_meant(alloc, out, kind, &at)
}
