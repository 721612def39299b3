//! The whole text.
ghost use Rattle.std.specs.Prelude.{◌≡◌, ◌++◌, [], map, option_map, slice_index_or, IfOk, OnOk};
ghost use Rattle.snap_parts.specs.Parts.{body_of};
ghost use Rattle.look_model.specs.States.{kept_lines, nodes_lines, states_of};

use crate::circle::append_circle;
use crate::node::append_node;
use crate::runs::Seat;
use crate::seen::kept;
use crate::wait_graph::wait_graph;
use circle_search::circle;
use look_words::append_end;
use snap_parts::{SnapNode, SnapSystem};
use std::alloc::{AllocError, Global};
use sys_plan::{NodePlan, Plan};
use xs_base::Text;
use xs_printer::Printer;

/// What a run by a plan has come to, in words: the threads of each node that are not free, what its network holds, and a circle of those who
/// wait for each other, where there is one. `lines` has, for each node by position, the line of its source that each of its instructions
/// comes from. The error is want of memory. See docs/LOOK.md.
pub fn states(
    alloc: Global,
    plan: &Plan,
    lines: &[Vec<u32>],
    snap: &SnapSystem,
) -> Result<Text, AllocError>
    ensures text { IfOk result (λ text. text ≡ states_of plan.now (map (λ numbers. numbers.items) lines.now) (body_of snap.now)) }
{
    let mut out = Text::new(alloc);
    append_nodes(alloc, &mut out, plan, lines, snap.slot, &snap.nodes)?;
    let graph = wait_graph(alloc, plan, &snap.nodes)?;
    let found = circle(alloc, &graph)?;
    append_circle(&mut out, plan.nodes(), &found)?;
    append_end(&mut out, snap.slot)?;
    Ok(out)
}

// The lines of all nodes.
#[tactic(auto, unfolding(trace_model::specs::Trace::by_position))]
fn append_nodes(
    alloc: Global,
    out: &mut Text,
    plan: &Plan,
    lines: &[Vec<u32>],
    slot: u32,
    snaps: &[SnapNode],
) -> Result<(), AllocError>
    ensures { OnOk result (out.new ≡ out.old ++ nodes_lines plan.now slot (map (λ numbers. numbers.items) lines.now) snaps.now) }
{
    plan.keeps();
    let nodes = plan.nodes();
    for n in 0..nodes.len() {
        let place = n as u8;
        let kept = kept(snaps, place);
        append_kept(
            alloc,
            out,
            plan,
            slot,
            place,
            &nodes[n],
            lines_of(lines, place),
            kept,
        )?;
    }
    Ok(())
}

// The lines of the instructions of the node at a position.
fn lines_of(lines: &[Vec<u32>], n: u8) -> &[u32]
    ensures { result.now ≡ slice_index_or (map (λ numbers. numbers.items) lines.now) n [] }
{
    match lines.get(n as usize) {
        None => &[],
        Some(numbers) => numbers.as_slice(),
    }
}

// The lines of the node at a position, as it was kept.
fn append_kept(
    alloc: Global,
    out: &mut Text,
    plan: &Plan,
    slot: u32,
    n: u8,
    node: &NodePlan,
    lines: &[u32],
    snap: Option<&SnapNode>,
) -> Result<(), AllocError>
    ensures { OnOk result (out.new ≡ out.old ++ kept_lines plan.now slot n node.now lines.now (option_map (λ s. s.now) snap.entry)) }
{
    let Some(snap) = snap else {
        return Ok(());
    };
    let printer = Printer::new(alloc, &node.image)?;
    let seat = Seat {
        node,
        printer: &printer,
        lines,
        slot,
        state: &snap.state,
    };
    append_node(alloc, out, plan, n, &seat)
}
