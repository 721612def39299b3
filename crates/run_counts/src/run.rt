//! The run.
ghost use Rattle.std.specs.Prelude.{◌≡◌, ◌+◌, ◌≤◌, Some, length, IfOk};
ghost use Rattle.run_counts.specs.Tallies.{AreNothing};
ghost use Rattle.run_counts.specs.Counted.{AreCounted};

use crate::nodes::NodeCounts;
use std::alloc::{AllocError, Global};
use sys_plan::{NodePlan, Plan};
use told_run::ToldRun;

/// What is counted in a run of so many slots by a plan: of each node, by position. The error is want of memory.
pub fn count_run(alloc: Global, plan: &Plan, slots: u32) -> Result<Vec<NodeCounts>, AllocError>
    ensures counted { IfOk result (λ counts. AreCounted plan.now slots counts.items) }
{
    plan.keeps();
    let mut all = no_counts(alloc, plan.nodes())?;
    let mut run = ToldRun::new(alloc, plan)?;
    for slot in 0..slots {
        run.step()?;
        count_slot(&run, plan.nodes(), slot, &mut all);
    }
    Ok(all)
}

// Nothing, of each of some nodes. The error is want of memory.
fn no_counts(alloc: Global, nodes: &[NodePlan]) -> Result<Vec<NodeCounts>, AllocError>
    ensures none { IfOk result (λ counts. AreNothing nodes.now counts.items) }
{
    let mut all = Vec::new(alloc);
    for node in nodes {
        all.push(NodeCounts::new(alloc, node)?)?;
    }
    Ok(all)
}

// Counts a slot, which the run has passed and tells; these are the nodes of its plan.
fn count_slot(run: &ToldRun, nodes: &[NodePlan], slot: u32, all: &mut [NodeCounts])
    requires nodes { run.now.plan.nodes ≡ nodes.now }
    requires few { length nodes.now ≤ 16 }
    requires told { run.now.slot ≡ Some slot }
    requires passed { run.now.now ≡ slot + 1 }
    requires before { AreCounted run.now.plan slot all.old }
    ensures counted { AreCounted run.now.plan (slot + 1) all.new }
{
    for n in 0..nodes.len() {
        all[n].count(run, slot, n as u8, &nodes[n]);
    }
}
