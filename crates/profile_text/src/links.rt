//! What the link ends of a node sent.
ghost use Rattle.std.specs.Prelude.{◌≡◌, ◌++◌, codes, OnOk};
ghost use Rattle.xs_base.specs.declared.numbers.TheConstants.{LINK_ENDS};
ghost use Rattle.profile_model.specs.Profile.{link_line};
ghost use Rattle.profile_text.specs.Counted.{links_by};

use crate::words::{append_count, append_node_name};
use run_counts::LinkCounts;
use std::alloc::AllocError;
use sys_plan::NodePlan;
use xs_base::Text;

/// The lines of the link ends of a node that sent something. The error is want of memory, here and below.
pub(crate) fn append_links(
    out: &mut Text,
    node: &NodePlan,
    counts: &LinkCounts,
) -> Result<(), AllocError>
    ensures { OnOk result (out.new ≡ out.old ++ links_by node.now counts.now LINK_ENDS) }
{
    for e in 0..8u8 {
        append_link(
            out,
            node,
            e,
            counts.tokens[e as usize],
            counts.full[e as usize],
        )?;
    }
    Ok(())
}

// That of a link end.
fn append_link(
    out: &mut Text,
    node: &NodePlan,
    e: u8,
    tokens: u64,
    full: u64,
) -> Result<(), AllocError>
    ensures { OnOk result (out.new ≡ out.old ++ link_line node.now e tokens full) }
{
    if tokens == 0 {
        return Ok(());
    }
    append_node_name(out, node)?;
    append_count(out, link_word(), u64::from(e))?;
    append_count(out, tokens_word(), tokens)?;
    append_count(out, full_word(), full)?;
    out.append(b"\n")?;
    Ok(())
}

fn link_word() -> &'static [u8]
    ensures { result.now ≡ codes " link " }
{
    b" link "
}

fn tokens_word() -> &'static [u8]
    ensures { result.now ≡ codes " tokens " }
{
    b" tokens "
}

fn full_word() -> &'static [u8]
    ensures { result.now ≡ codes " full " }
{
    b" full "
}
