//! Workers before their first turn.
ghost use Rattle.std.specs.Prelude.{◌≡◌, ◌≤◌, ◌+◌, All, Some, IfOk, length, slice_get};
ghost use Rattle.xs_base.specs.Numbers.{Position};
ghost use Rattle.plan_cells.specs.declared.ends.Ends as node_ends;
ghost use Rattle.plan_cells.specs.Ends.{AreNewEnds};
ghost use Rattle.core_workers.specs.Worker.{IsOpen};

use core_workers::{Lanes, NodeRunner, Worker};
use plan_cells::Ends;
use std::alloc::{AllocError, Global};
use sys_plan::Plan;

/// The slots of a run that ends soon.
pub const LIMIT: u32 = 12;

/// A limit that no node reaches.
pub const FAR: u32 = 1000;

/// The worker of the last node whose ends are left, before its first turn, for a run of so many slots. The error is want of memory.
pub fn last_worker<'a>(
    alloc: Global,
    plan: &Plan,
    lanes: &'a Lanes,
    ends: &mut Vec<Ends>,
    node: u8,
    limit: u32,
) -> Result<Worker<'a>, AllocError>
    requires plan { lanes.now.plan ≡ plan.now }
    requires count { length ends.old.items ≡ node + 1 }
    requires nodes { node + 1 ≤ length plan.now.nodes }
    requires ends { (n : Position) (e : node_ends.Ends) → slice_get ends.old.items n ≡ Some e → AreNewEnds lanes.now n e }
    ensures open { IfOk result (λ w. All IsOpen w.ends.outgoing.items) }
    ensures count { length ends.new.items ≡ node }
    ensures ends { (n : Position) (e : node_ends.Ends) → slice_get ends.new.items n ≡ Some e → AreNewEnds lanes.now n e }
{
    let Some(last) = ends.pop() else {
        return Err(AllocError);
    };
    let runner = NodeRunner::new(alloc, plan, node, limit)?;
    Ok(Worker::new(runner, lanes, last))
}
