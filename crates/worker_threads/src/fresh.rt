//! `Fresh`, a node before its first slot.
ghost use Rattle.std.specs.Prelude.{◌≡◌, Some, IfOk, length, slice_get};
ghost use Rattle.xs_base.specs.Numbers.{Position};
ghost use Rattle.plan_cells.specs.declared.ends.Ends as node_ends;
ghost use Rattle.plan_cells.specs.Ends.{AreNewEnds};
ghost use Rattle.worker_threads.specs.Team.{AreFresh};

use core_workers::{Lanes, NodeRunner};
use plan_cells::Ends;
use std::alloc::{AllocError, Global};
use sys_plan::Plan;

/// A node before its first slot, with the ends of the cells of its links and wires.
#[derive(Drop)]
pub(crate) struct Fresh {
    pub(crate) runner: NodeRunner,
    pub(crate) ends: Ends,
    // How often its worker looks for news that it waits for without letting go of its processor.
    pub(crate) eager: u32,
}

/// The nodes of a plan before their first slot, by position, in a run of so many slots, with the ends that these lanes have for them, for
/// workers that look so often for news without letting go of their processor. The error is want of memory.
pub(crate) fn fresh_nodes(
    alloc: Global,
    plan: &Plan,
    lanes: &Lanes,
    all: Vec<Ends>,
    limit: u32,
    eager: u32,
) -> Result<Vec<Fresh>, AllocError>
    requires plan { lanes.now.plan ≡ plan.now }
    requires nodes { length all.items ≡ length plan.now.nodes }
    requires new_ends { (n : Position) (e : node_ends.Ends) → slice_get all.items n ≡ Some e → AreNewEnds lanes.now n e }
    ensures fresh { IfOk result (λ nodes. AreFresh lanes.now limit nodes.items) }
{
    let mut nodes = Vec::with_capacity(alloc, plan.nodes().len())?;
    for ends in all {
        let runner = NodeRunner::new(alloc, plan, nodes.len() as u8, limit)?;
        nodes.push(Fresh {
            runner,
            ends,
            eager,
        })?;
    }
    Ok(nodes)
}
