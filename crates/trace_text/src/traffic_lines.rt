//! The line of a directed link: how many tokens and credits were sent on it.
ghost use Rattle.std.specs.Prelude.{◌≡◌, ◌++◌, OnOk};
ghost use Rattle.trace_model.specs.Trace.{counts_text, traffic_line};

use decimal_text::append_decimal;
use line_text::append_link_end;
use std::alloc::AllocError;
use xs_base::Text;

// ` tokens A credits B`, and the line's end.
fn append_counts(out: &mut Text, sent: (u64, u64)) -> Result<(), AllocError>
    ensures { OnOk result (out.new ≡ out.old ++ counts_text sent) }
{
    out.append(b" tokens ")?;
    append_decimal(out, sent.0)?;
    out.append(b" credits ")?;
    append_decimal(out, sent.1)?;
    out.append(b"\n")
}

// `link N:E>M:F tokens A credits B`, where so many of each were sent.
pub(crate) fn append_traffic_line(
    out: &mut Text,
    from: u8,
    from_end: u8,
    to: u8,
    to_end: u8,
    sent: (u64, u64),
) -> Result<(), AllocError>
    ensures { OnOk result (out.new ≡ out.old ++ traffic_line from from_end to to_end sent) }
{
    out.append(b"link ")?;
    append_link_end(out, from, from_end)?;
    out.append(b">")?;
    append_link_end(out, to, to_end)?;
    append_counts(out, sent)
}
