//! How the cells of a plan are made, and their ends dealt to the nodes.
ghost use Rattle.std.specs.Prelude.{◌≡◌, ◌<◌, [], IfOk, OnOk, length, replicate};
ghost use Rattle.sys_plan.specs.Plan.{arcs, arc_count};
ghost use Rattle.plan_cells.specs.Inside.{AreCells, IsCellOf, AreDealt, Deals, handed, outgoing_of, incoming_of, cells_of};

use crate::ends::{Ends, Incoming, Outgoing};
use log_cells::{Cell, make_cell};
use plan_routes::route_of;
use plan_stories::PlanStory;
use std::alloc::{AllocError, Global};
use std::sync::Arc;
use sys_plan::Plan;

/// No ends, for each of so many nodes. The error is want of memory.
pub(crate) fn no_ends(alloc: Global, nodes: usize) -> Result<Vec<Ends>, AllocError>
    ensures outgoing { IfOk result (λ all. outgoing_of all.items ≡ replicate nodes []) }
    ensures incoming { IfOk result (λ all. incoming_of all.items ≡ replicate nodes []) }
{
    let mut all = Vec::new(alloc);
    for _ in 0..nodes {
        all.push(Ends {
            outgoing: Vec::new(alloc),
            incoming: Vec::new(alloc),
        })?;
    }
    Ok(all)
}

/// A new cell for each arc of a plan, by number, whose ends go to the nodes, which have none so far. The error is want of
/// memory.
pub(crate) fn deal_all(
    alloc: Global,
    plan: &Arc<Plan>,
    all: &mut Vec<Ends>,
) -> Result<Vec<Cell<PlanStory>>, AllocError>
    requires no_outgoing { outgoing_of all.old.items ≡ replicate (length plan.now.value.nodes) [] }
    requires no_incoming { incoming_of all.old.items ≡ replicate (length plan.now.value.nodes) [] }
    ensures cells { IfOk result (λ cells. AreCells plan.now.value cells.items) }
    ensures nodes { OnOk result (length all.new.items ≡ length plan.now.value.nodes) }
    ensures dealt { IfOk result (λ cells. AreDealt (cells_of plan.now.value cells.items) (arcs plan.now.value) all.new.items) }
{
    let mut cells = Vec::new(alloc);
    for link in 0..2 * plan.links().len() + plan.wires().len() {
        let cell = deal(alloc, plan, link as u32, all)?;
        cells.push(cell)?;
    }
    Ok(cells)
}

// A new cell for the arc with a number, whose ends go to its two nodes, behind those that they have.
fn deal(
    alloc: Global,
    plan: &Arc<Plan>,
    link: u32,
    all: &mut Vec<Ends>,
) -> Result<Cell<PlanStory>, AllocError>
    requires link { link < arc_count plan.now.value }
    requires nodes { length all.old.items ≡ length plan.now.value.nodes }
    ensures cell { IfOk result (λ cell. IsCellOf plan.now.value link cell) }
    ensures deals { IfOk result (λ cell. Deals plan.now.value link cell all.old.items all.new.items) }
{
    let route = route_of(plan, link);
    let story = PlanStory::new(plan, link)?;
    let (cell, w, r) = make_cell(alloc, story)?;
    let outgoing = Outgoing {
        end: route.from_end,
        link,
        w,
    };
    give_outgoing(all, route.from, outgoing)?;
    let incoming = Incoming {
        end: route.to_end,
        link,
        r,
        hand: None,
        busy: false,
    };
    give_incoming(all, route.to, incoming)?;
    Ok(cell)
}

// One more end that writes goes to a node.
fn give_outgoing(all: &mut Vec<Ends>, node: u8, outgoing: Outgoing) -> Result<(), AllocError>
    requires node { node < length all.old.items }
    ensures outgoing { OnOk result (outgoing_of all.new.items ≡ handed (outgoing_of all.old.items) node outgoing) }
    ensures incoming { OnOk result (incoming_of all.new.items ≡ incoming_of all.old.items) }
{
    let ends = &mut all[node as usize];
    ends.outgoing.push(outgoing)?;
    Ok(())
}

// One more end that reads goes to a node.
fn give_incoming(all: &mut Vec<Ends>, node: u8, incoming: Incoming) -> Result<(), AllocError>
    requires node { node < length all.old.items }
    ensures outgoing { OnOk result (outgoing_of all.new.items ≡ outgoing_of all.old.items) }
    ensures incoming { OnOk result (incoming_of all.new.items ≡ handed (incoming_of all.old.items) node incoming) }
{
    let ends = &mut all[node as usize];
    ends.incoming.push(incoming)?;
    Ok(())
}
