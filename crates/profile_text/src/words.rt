//! Pieces that lines share.
ghost use Rattle.std.specs.Prelude.{◌≡◌, ◌++◌, decimal, OnOk};
ghost use Rattle.profile_model.specs.Profile.{node_name};

use decimal_text::append_decimal;
use std::alloc::AllocError;
use sys_plan::NodePlan;
use xs_base::Text;

/// `nN`. The error is want of memory, here and below.
pub(crate) fn append_node_name(out: &mut Text, node: &NodePlan) -> Result<(), AllocError>
    ensures { OnOk result (out.new ≡ out.old ++ node_name node.now) }
{
    out.append(b"n")?;
    append_decimal(out, u64::from(node.number))
}

/// A number behind a word.
pub(crate) fn append_count(out: &mut Text, word: &[u8], count: u64) -> Result<(), AllocError>
    ensures { OnOk result (out.new ≡ out.old ++ (word.now ++ decimal count)) }
{
    out.append(word)?;
    append_decimal(out, count)
}
