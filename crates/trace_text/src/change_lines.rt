//! The line of a wire: how often the level changed that it carries.
ghost use Rattle.std.specs.Prelude.{◌≡◌, ◌<◌, ◌++◌, OnOk};
ghost use Rattle.trace_model.specs.Trace.{changes_line};

use decimal_text::append_decimal;
use line_text::append_pin;
use std::alloc::AllocError;
use sys_plan::WirePlan;
use xs_base::Text;

// `wire N:P>M:Q changes C`, between nodes with these numbers.
pub(crate) fn append_changes_line(
    out: &mut Text,
    from: u8,
    to: u8,
    wire: &WirePlan,
    changes: u64,
) -> Result<(), AllocError>
    requires from_port { wire.now.a_port < 29 }
    requires to_port { wire.now.b_port < 29 }
    ensures { OnOk result (out.new ≡ out.old ++ changes_line from wire.now.a_port to wire.now.b_port changes) }
{
    out.append(b"wire ")?;
    append_pin(out, from, wire.a_port)?;
    out.append(b">")?;
    append_pin(out, to, wire.b_port)?;
    out.append(b" changes ")?;
    append_decimal(out, changes)?;
    out.append(b"\n")
}
