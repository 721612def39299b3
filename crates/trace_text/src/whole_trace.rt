//! The trace of a run.
ghost use Rattle.std.specs.Prelude.{◌≡◌, ◌<◌, ◌≤◌, ◌++◌, length, IfOk, OnOk, ◌+◌, ◌*◌};
ghost use Rattle.sys_plan.specs.Plan.{IsWire, link_arcs, arc_count, forth, back};
ghost use Rattle.trace_model.specs.Trace.{by_position, event_lines, events_in_order, traffic_at, changes_at, lines_after_events, end_text, trace_text};

use crate::by_node::{Halted, Memory, More, append_by_node};
use crate::change_lines::append_changes_line;
use crate::ended::EndedRun;
use crate::node_lines::{append_end_line, append_event_lines};
use crate::traffic_lines::append_traffic_line;
use finished_runs::FinishedRun;
use std::alloc::{AllocError, Global};
use sys_plan::{LinkPlan, NodePlan, Plan, WirePlan};
use trace_merge::merge;
use xs_base::Text;

/// The trace of a run of a plan that has come to its limit, whatever the way in which its nodes were run. The error is want of
/// memory. See docs/OUTPUT.md.
pub fn trace(alloc: Global, plan: &Plan, finished: FinishedRun) -> Result<Text, AllocError>
    requires plan { finished.plan ≡ plan.now }
    ensures text { IfOk result (λ t. t ≡ trace_text plan.now finished.limit) }
{
    end_text(alloc, plan, finished)
}

/// What is written of a run of a plan that has come to its limit, whatever it began with. The error is want of memory. See docs/OUTPUT.md.
pub fn end_text<R: EndedRun>(alloc: Global, plan: &Plan, run: R) -> Result<Text, AllocError>
    requires plan { R.plan run ≡ plan.now }
    ensures text { IfOk result (λ t. t ≡ end_text plan.now (R.slots run) (R.end run)) }
{
    // The run is taken apart for its events, which come first, so the rest is written before.
    let mut rest = Text::new(alloc);
    append_rest(&mut rest, plan, &run)?;
    append_end_line(&mut rest, run.limit())?;
    let mut out = Text::new(alloc);
    append_events(&mut out, alloc, plan, run)?;
    out.append(rest.bytes())?;
    Ok(out)
}

// The line of each kept event of all nodes: by slot, within a slot by node, and each node's in its own order.
fn append_events<R: EndedRun>(
    out: &mut Text,
    alloc: Global,
    plan: &Plan,
    run: R,
) -> Result<(), AllocError>
    requires plan { R.plan run ≡ plan.now }
    ensures { OnOk result (out.new ≡ out.old ++ event_lines plan.now.nodes (events_in_order (R.end run))) }
{
    let nodes = plan.nodes();
    let events = run.into_events(alloc)?;
    let merged = merge(alloc, &events)?;
    append_event_lines(out, alloc, nodes, merged.list())
}

// The lines between those of the events and the last.
fn append_rest<R: EndedRun>(out: &mut Text, plan: &Plan, run: &R) -> Result<(), AllocError>
    requires plan { R.plan run.now ≡ plan.now }
    ensures { OnOk result (out.new ≡ out.old ++ lines_after_events plan.now (R.end run.now)) }
{
    let nodes = plan.nodes();
    append_by_node::<More, R>(out, nodes, run)?;
    append_links(out, plan, run)?;
    append_wires(out, plan, run)?;
    append_by_node::<Halted, R>(out, nodes, run)?;
    append_by_node::<Memory, R>(out, nodes, run)
}

// The line of each directed link: of each link forth, and back.
fn append_links<R: EndedRun>(out: &mut Text, plan: &Plan, run: &R) -> Result<(), AllocError>
    requires plan { R.plan run.now ≡ plan.now }
    ensures { OnOk result (out.new ≡ out.old ++ by_position (traffic_at plan.now.nodes (R.end run.now)) 0 (link_arcs plan.now.links)) }
{
    let links = plan.links();
    let nodes = plan.nodes();
    for k in 0..links.len() {
        append_traffic_at(out, k as u32, &links[k], nodes, run)?;
    }
    Ok(())
}

// The two lines of link k.
fn append_traffic_at<R: EndedRun>(
    out: &mut Text,
    k: u32,
    link: &LinkPlan,
    nodes: &[NodePlan],
    run: &R,
) -> Result<(), AllocError>
    requires number { 2 * k + 1 < arc_count (R.plan run.now) }
    requires few { k < 48 }
    requires a { link.now.a < length nodes.now }
    requires b { link.now.b < length nodes.now }
    ensures { OnOk result (out.new ≡ out.old ++ (traffic_at nodes.now (R.end run.now) (2 * k) (forth link.now) ++ traffic_at nodes.now (R.end run.now) (2 * k + 1) (back link.now))) }
{
    let a = nodes[link.a as usize].number;
    let b = nodes[link.b as usize].number;
    append_traffic_line(out, a, link.a_end, b, link.b_end, run.totals(2 * k))?;
    append_traffic_line(out, b, link.b_end, a, link.a_end, run.totals(2 * k + 1))
}

// The line of each wire.
fn append_wires<R: EndedRun>(out: &mut Text, plan: &Plan, run: &R) -> Result<(), AllocError>
    requires plan { R.plan run.now ≡ plan.now }
    ensures { OnOk result (out.new ≡ out.old ++ by_position (changes_at plan.now.nodes (length (link_arcs plan.now.links)) (R.end run.now)) 0 plan.now.wires) }
{
    let wires = plan.wires();
    let nodes = plan.nodes();
    let links = plan.links();
    let first = 2 * links.len() as u32;
    for w in 0..wires.len() {
        append_changes_at(out, first, w as u32, &wires[w], nodes, run)?;
    }
    Ok(())
}

// The line of wire w, where the arc of the first wire has this number.
fn append_changes_at<R: EndedRun>(
    out: &mut Text,
    first: u32,
    w: u32,
    wire: &WirePlan,
    nodes: &[NodePlan],
    run: &R,
) -> Result<(), AllocError>
    requires number { first + w < arc_count (R.plan run.now) }
    requires few { first ≤ 96 }
    requires few_wires { w < 32 }
    requires wire { IsWire (length nodes.now) wire.now }
    ensures { OnOk result (out.new ≡ out.old ++ changes_at nodes.now first (R.end run.now) w wire.now) }
{
    let a = nodes[wire.a as usize].number;
    let b = nodes[wire.b as usize].number;
    // Of a wire the levels alone are told.
    let (changes, _) = run.totals(first + w);
    append_changes_line(out, a, b, wire, changes)
}
