//! How the ends are taken back from the nodes, and the logs out of the cells.
ghost use Rattle.std.specs.Prelude.{◌≡◌, ◌<◌, Some, [], IfOk, length, slice_get, slice_index_or};
ghost use Rattle.std.specs.List.{AllByRecursion};
ghost use Rattle.xs_base.specs.Numbers.{Position, LinkNumber};
ghost use Rattle.sys_plan.specs.Plan.{PlanRec, arc_count};
ghost use Rattle.link_logs.specs.Logs.{LogRec};
ghost use Rattle.plan_cells.specs.declared.ends.Ends as ends;
ghost use Rattle.plan_cells.specs.Ends.{AreEnds, IsLogOf, HasLeft, HasRead};
ghost use Rattle.plan_cells.specs.Inside.{AreCells, handed, outgoing_of, incoming_of, cells_of};

use crate::ends::{Ends, Incoming, Outgoing};
use link_logs::Log;
use log_cells::Cell;
use plan_routes::route_of;
use plan_stories::PlanStory;
use std::alloc::{AllocError, Global};
use sys_plan::Plan;

/// The logs of a plan's cells, by number, where the ends of all nodes are given back. The error is want of memory.
pub(crate) fn logs_of(
    alloc: Global,
    plan: &Plan,
    cells: Vec<Cell<PlanStory>>,
    all: Vec<Ends>,
) -> Result<Vec<Log<PlanStory>>, AllocError>
    requires cells { AreCells plan.now cells.items }
    requires nodes { length all.items ≡ length plan.now.nodes }
    requires ends { (n : Position) (e : ends.Ends) → slice_get all.items n ≡ Some e → AreEnds (cells_of plan.now cells.items) n e }
    ensures links { IfOk result (λ logs. length logs.items ≡ arc_count plan.now) }
    ensures own { IfOk result (λ logs. (link : LinkNumber) (log : LogRec PlanRec) → slice_get logs.items link ≡ Some log → IsLogOf plan.now link log) }
    ensures left { IfOk result (λ logs. (n : Position) (e : ends.Ends) → slice_get all.items n ≡ Some e → AllByRecursion (HasLeft logs.items) e.outgoing.items) }
    ensures read { IfOk result (λ logs. (n : Position) (e : ends.Ends) → slice_get all.items n ≡ Some e → AllByRecursion (HasRead logs.items) e.incoming.items) }
{
    plan.keeps();
    let mut cells = cells;
    let mut all = all;
    let mut logs = Vec::new(alloc);
    // From the last arc on, whose ends are the last that its two nodes have.
    while let Some(cell) = cells.pop() {
        let route = route_of(plan, cells.len() as u32);
        let outgoing = last_outgoing(&mut all, route.from);
        let incoming = last_incoming(&mut all, route.to);
        logs.push(cell.done(outgoing.w, incoming.r))?;
    }
    logs.reverse();
    Ok(logs)
}

// The last end that writes is taken back from a node.
fn last_outgoing(all: &mut Vec<Ends>, node: u8) -> Outgoing
    requires node { node < length all.old.items }
    requires some { 0 < length (slice_index_or (outgoing_of all.old.items) node []) }
    ensures outgoing { outgoing_of all.old.items ≡ handed (outgoing_of all.new.items) node result }
    ensures incoming { incoming_of all.new.items ≡ incoming_of all.old.items }
{
    let ends = &mut all[node as usize];
    let Some(outgoing) = ends.outgoing.pop() else {
        unreachable!()
    };
    outgoing
}

// The last end that reads is taken back from a node.
fn last_incoming(all: &mut Vec<Ends>, node: u8) -> Incoming
    requires node { node < length all.old.items }
    requires some { 0 < length (slice_index_or (incoming_of all.old.items) node []) }
    ensures outgoing { outgoing_of all.new.items ≡ outgoing_of all.old.items }
    ensures incoming { incoming_of all.old.items ≡ handed (incoming_of all.new.items) node result }
{
    let ends = &mut all[node as usize];
    let Some(incoming) = ends.incoming.pop() else {
        unreachable!()
    };
    incoming
}
