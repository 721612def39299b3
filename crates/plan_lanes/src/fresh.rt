//! The nodes and the lanes of a plan before the first slot.
ghost use Rattle.std.specs.Prelude.{◌≡◌, IfOk, length};
ghost use Rattle.sys_plan.specs.Plan.{arc_count};
ghost use Rattle.node_runners.specs.Runner.{new_runner};
ghost use Rattle.plan_lanes.specs.Lanes.{AllAt, IsNewLane};

use crate::lane::Lane;
use node_runners::NodeRunner;
use std::alloc::{AllocError, Global};
use std::sync::Arc;
use sys_plan::Plan;

/// The nodes of a plan by position, before the first slot of a run of so many slots, `limit`. The error is want of memory.
pub fn runners_of(alloc: Global, plan: &Plan, limit: u32) -> Result<Vec<NodeRunner>, AllocError>
    ensures count { IfOk result (λ v. length v.items ≡ length plan.now.nodes) }
    ensures start { IfOk result (λ v. AllAt (λ n r. r ≡ new_runner plan.now limit n) v.items) }
{
    let mut runners = Vec::new(alloc);
    for n in 0..plan.nodes().len() {
        let runner = NodeRunner::new(alloc, plan, n as u8, limit)?;
        runners.push(runner)?;
    }
    Ok(runners)
}

/// The lanes of all arcs of a plan by number, those of its links and then those of its wires, with nothing in them. The error is want of
/// memory.
pub fn lanes_of(alloc: Global, plan: &Arc<Plan>) -> Result<Vec<Lane>, AllocError>
    ensures count { IfOk result (λ v. length v.items ≡ arc_count plan.now.value) }
    ensures start { IfOk result (λ v. AllAt (IsNewLane plan.now.value) v.items) }
{
    let mut lanes = Vec::new(alloc);
    let arcs = 2 * plan.links().len() + plan.wires().len();
    for link in 0..arcs {
        let lane = Lane::new(alloc, plan, link as u32)?;
        lanes.push(lane)?;
    }
    Ok(lanes)
}
