//! The last lines of what a form writes.
ghost use Rattle.std.specs.Prelude.{◌≡◌, ◌++◌, OnOk};
ghost use Rattle.trace_model.specs.Trace.{end_line};
ghost use Rattle.issue_model.specs.Issues.{more_text};

use decimal_text::append_decimal;
use std::alloc::AllocError;
use xs_base::Text;

/// `more C`, where so many are more than none. The error is want of memory, here and below.
pub fn append_more(out: &mut Text, count: u64) -> Result<(), AllocError>
    ensures { OnOk result (out.new ≡ out.old ++ more_text count) }
{
    if count == 0 {
        return Ok(());
    }
    out.append(b"more ")?;
    append_decimal(out, count)?;
    out.append(b"\n")
}

/// `end SLOTS`.
pub fn append_end(out: &mut Text, slots: u32) -> Result<(), AllocError>
    ensures { OnOk result (out.new ≡ out.old ++ end_line slots) }
{
    out.append(b"end ")?;
    append_decimal(out, u64::from(slots))?;
    out.append(b"\n")
}
