//! All that is told of a faulty line of a pin script.
ghost use Rattle.std.specs.Prelude.{◌≡◌, ◌≤◌, ◌<◌, ◌+◌, ◌^◌, ◌++◌, length, OnOk};
ghost use Rattle.xs_text.specs.Lines.{lines_of};
ghost use Rattle.explain_frame_model.specs.Script.{number_of_line, script_told};
ghost use Rattle.explain_script_text.specs.Lines.{line_of_kept};

use crate::meant::append_meant;
use crate::script_line::ScriptLine;
use marked_lines::{append_accepted, append_line, append_mark};
use pin_scripts::PinKind;
use std::alloc::{AllocError, Global};
use xs_base::Text;

impl<'a> ScriptLine<'a> {
    // Its number in the whole text.
    fn number(&self) -> u32
        ensures { result ≡ number_of_line (line_of_kept self.now) }
    {
        self.first + (self.line - 1)
    }
}

/// Tells of line `line` of a pin script, counted from 1, where the first line of the script has the number `first` in the whole text, and the kind is
/// that of its fault: the line as it stands, a mark under the place at which it is faulty, what may stand there, and what is meant, but for the nodes
/// of the system, of which a script does not know. The error is want of memory. See docs/LOOK.md.
#[tactic(auto, unfolding(explain_frame_model::specs::Script::script_told))]
pub fn append_script_told(
    alloc: Global,
    out: &mut Text,
    script: &[u8],
    first: u32,
    line: u32,
    kind: PinKind,
) -> Result<(), AllocError>
    requires from_one { 1 ≤ line }
    requires in_text { first + length script.now < 2 ^ 32 }
    requires in_script { line ≤ length script.now }
    ensures { OnOk result (out.new ≡ out.old ++ script_told kind (record { first = first; lines = lines_of script.now; line = line })) }
{
    let at = ScriptLine::new(script, first, line);
    let spot = at.spot(alloc, kind)?;
    append_line(out, at.number(), at.bytes)?;
    append_mark(out, at.number(), at.bytes, spot.at)?;
    append_accepted(out, &spot.wants)?;
    append_meant(out, kind, &at)
}
