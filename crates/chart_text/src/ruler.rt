//! The ruler of a block.
ghost use Rattle.std.specs.Prelude.{◌≡◌, ◌+◌, ◌*◌, ◌^◌, ◌<◌, ◌++◌, IfOk, OnOk};
ghost use Rattle.chart_model.specs.Chart.{ruler_numbers, ruler_text};

use crate::padding::pad_to;
use chart_model::NAME_COLUMNS;
use decimal_text::append_decimal;
use std::alloc::{AllocError, Global};
use xs_base::Text;

/// The ruler above so many slots from one on. The error is want of memory.
pub(crate) fn append_ruler(
    alloc: Global,
    out: &mut Text,
    from: u32,
    count: u32,
) -> Result<(), AllocError>
    requires count { count < 1000 }
    ensures { OnOk result (out.new ≡ out.old ++ ruler_text from count) }
{
    let mut name = Text::new(alloc);
    name.append(b"slot")?;
    pad_to(&mut name, NAME_COLUMNS as usize)?;
    let numbers = ruler_numbers(alloc, from, (count + 9) / 10)?;
    out.append(name.bytes())?;
    out.append(numbers.bytes())?;
    out.append(b"\n")
}

// Every tenth slot's number, from its column on.
fn ruler_numbers(alloc: Global, from: u32, count: u32) -> Result<Text, AllocError>
    requires count { count < 1000 }
    ensures { IfOk result (λ numbers. numbers ≡ ruler_numbers from count) }
{
    let mut numbers = Text::new(alloc);
    for k in 0..count {
        pad_to(&mut numbers, 10 * k as usize)?;
        append_decimal(&mut numbers, u64::from(from) + 10 * u64::from(k))?;
    }
    Ok(numbers)
}
