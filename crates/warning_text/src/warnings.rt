//! What is warned of in a system text that is accepted.
ghost use Rattle.std.specs.Prelude.{◌≡◌, ◌<◌, ◌^◌, ◌++◌, length, OnOk};
ghost use Rattle.xs_text.specs.Lines.{lines_of};
ghost use Rattle.warning_model.specs.Warnings.{warnings};
ghost use Rattle.warning_model.specs.Texts.{warnings_text};

use crate::frame::add_frame;
use crate::sources::add_sources;
use crate::texts::append_all;
use crate::warning::Warnings;
use std::alloc::{AllocError, Global};
use sys_plan::Plan;
use xs_base::Text;

/// Tells of a system text that is accepted, by its plan, what is most likely a mistake in it, each with the line as it stands: the first 100, and how
/// many there are more. The error is want of memory. See docs/LOOK.md.
pub fn append_warnings(
    alloc: Global,
    out: &mut Text,
    text: &[u8],
    plan: &Plan,
) -> Result<(), AllocError>
    requires { length text.now < 2 ^ 31 }
    ensures { OnOk result (out.new ≡ out.old ++ warnings_text (warnings plan.now (lines_of text.now))) }
{
    let mut warnings = Warnings::new(alloc);
    add_frame(alloc, &mut warnings, plan, text)?;
    add_sources(alloc, &mut warnings, plan, text)?;
    append_all(out, &warnings)
}
