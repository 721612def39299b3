//! The nodes of a snapshot.
ghost use Rattle.std.specs.Prelude.{◌≡◌, ◌++◌, length, nat_lt, IfOk, OnOk};
ghost use Rattle.xs_base.specs.Numbers.{Slot};
ghost use Rattle.sys_plan.specs.Plan.{PlanRec};
ghost use Rattle.byte_forms.specs.Reading.{Gives};
ghost use Rattle.snap_codec.specs.Body.{nodes, there_of};

use byte_forms::{Fault, Reader};
use node_forms::{read_node, write_node};
use snap_parts::SnapNode;
use std::alloc::{AllocError, Global};
use sys_plan::Plan;
use xs_base::Text;

/// Reads the nodes of a plan by position, in a snapshot of this slot.
pub(crate) fn read_nodes(
    alloc: Global,
    from: &mut Reader,
    plan: &Plan,
    slot: u32,
) -> Result<Vec<SnapNode>, Fault>
    ensures value { Gives (nodes plan.now slot) (λ all. all.items) from.old result from.new }
    ensures count { IfOk result (λ all. length all.items ≡ length plan.now.nodes) }
{
    let mut all = Vec::new(alloc);
    let count = plan.nodes().len();
    for n in 0..count {
        let node = read_node(alloc, from, &there(plan, n as u8), slot)?;
        all.push(node)?;
    }
    Ok(all)
}

// Which link ends the plan has of the node at a position.
fn there(plan: &Plan, n: u8) -> [bool; 8]
    ensures { result ≡ there_of plan.now n }
{
    plan.gaps(n).map(is_gap)
}

fn is_gap(gap: u32) -> bool
    ensures { result ≡ nat_lt 0 gap }
{
    gap > 0
}

/// Writes nodes by position. The error is want of memory.
pub(crate) fn write_nodes(out: &mut Text, all: &[SnapNode]) -> Result<(), AllocError>
    ensures value { OnOk result ((plan : PlanRec) (slot : Slot) → out.new ≡ out.old ++ (nodes plan slot).write all.now) }
{
    for node in all {
        write_node(out, node)?;
    }
    Ok(())
}
