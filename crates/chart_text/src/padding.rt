//! Text that is filled up with blanks.
ghost use Rattle.std.specs.Prelude.{◌≡◌, ◌++◌, replicate, OnOk};
ghost use Rattle.chart_model.specs.Chart.{padded};

use std::alloc::AllocError;
use xs_base::Text;

/// Fills a text up with blanks to so many columns. The error is want of memory, here and below.
pub(crate) fn pad_to(text: &mut Text, columns: usize) -> Result<(), AllocError>
    ensures { OnOk result (text.new ≡ padded columns text.old) }
{
    let missing = columns.saturating_sub(text.bytes().len());
    append_blanks(text, missing)
}

fn append_blanks(text: &mut Text, count: usize) -> Result<(), AllocError>
    ensures { OnOk result (text.new ≡ text.old ++ replicate count 32) }
{
    for _ in 0..count {
        text.append(b" ")?;
    }
    Ok(())
}
