//! Plans of which each node is run by a worker: in a thread of its own, or by turns in this thread where the start of one is refused.
ghost use Rattle.std.specs.Prelude.{◌≤◌};

use core_workers::Lanes;
use pin_scripts::Script;
use std::alloc::{AllocError, Global};
use std::sync::Arc;
use std::test::Fail;
use sys_plan::{LinkPlan, Plan};
use test_plans::{bare_node, link_on, pair};
use worker_threads::{Starts, run_workers, run_workers_where};
use xs_edge::OpenGate;

/// The start of a thread is tried for the nodes whose bits are set.
#[derive(Drop)]
struct InMask {
    mask: u8,
}

impl Starts for InMask {
    fn tries(&self, node: u8) -> bool {
        node < 8 && (self.mask >> node) & 1 == 1
    }
}

// Three bare nodes in a ring: a link leads from link end 7 of each to link end 0 of the next one. Each node waits for both others.
fn ring_of_three(alloc: Global, delay: u32) -> Result<Plan, AllocError>
    requires least { 1 ≤ delay }
    requires most { delay ≤ 1000 }
{
    let mut nodes = Vec::new(alloc);
    nodes.push(bare_node(alloc, 0))?;
    nodes.push(bare_node(alloc, 1))?;
    nodes.push(bare_node(alloc, 2))?;
    let mut links = Vec::new(alloc);
    links.push(link_on(0, delay))?;
    links.push(link_on(1, delay))?;
    links.push(LinkPlan {
        a: 2,
        a_end: 7,
        b: 0,
        b_end: 0,
        delay,
        gap: 4,
        net: 0,
    })?;
    Ok(Plan::of(
        nodes,
        links,
        Script::empty(),
        Vec::new(alloc),
        Vec::new(alloc),
    ))
}

#[test]
fn workers_come_to_the_limit(rt: HostRuntime) -> Result<(), Fail> {
    let alloc = rt.alloc();
    let plan = Arc::new(alloc, pair(alloc, 1)?)?;
    let (lanes, ends) = Lanes::new(alloc, &plan)?;
    let parts = run_workers(&rt, alloc, &plan, &lanes, ends, 500, &OpenGate)?;
    assert!(rt; parts.len() == 2);
    Ok(())
}

// Of all starts none is refused, each in turn alone, each two, and all three: it would never end where one of them was not noted, or where
// a node without a thread had no more turns.
#[test]
fn a_ring_comes_to_the_limit_whichever_starts_are_refused(rt: HostRuntime) -> Result<(), Fail> {
    let alloc = rt.alloc();
    for mask in 0..8 {
        let plan = Arc::new(alloc, ring_of_three(alloc, 3)?)?;
        let (lanes, ends) = Lanes::new(alloc, &plan)?;
        let starts = InMask { mask };
        let parts = run_workers_where(&rt, alloc, &plan, &lanes, ends, 500, &OpenGate, &starts)?;
        let run = lanes.finish(alloc, parts, 500)?;
        assert!(rt; run.limit() == 500);
    }
    Ok(())
}
