//! All nodes.
ghost use Rattle.std.specs.Prelude.{◌≡◌, ◌+◌, ◌++◌, [], map, length, slice_index_or, IfOk, OnOk};
ghost use Rattle.trace_model.specs.Trace.{by_position};
ghost use Rattle.profile_model.specs.Profile.{node_text, profile_of};
ghost use Rattle.run_counts.specs.Tallies.{HasPlaces};
ghost use Rattle.run_counts.specs.Counted.{AreCounted};
ghost use Rattle.profile_text.specs.Counted.{node_by};

use crate::links::append_links;
use crate::places::append_places;
use crate::threads::append_threads;
use look_words::append_end;
use run_counts::{NodeCounts, count_run};
use std::alloc::{AllocError, Global};
use sys_plan::{NodePlan, Plan};
use xs_base::Text;

/// What is counted in a run of so many slots by a plan. `lines` has, for each node by position, the line of its source that each of its
/// instructions comes from. The error is want of memory. See docs/LOOK.md.
pub fn profile(
    alloc: Global,
    plan: &Plan,
    lines: &[Vec<u32>],
    slots: u32,
) -> Result<Text, AllocError>
    ensures text { IfOk result (λ text. text ≡ profile_of plan.now (map (λ numbers. numbers.items) lines.now) slots) }
{
    let counts = count_run(alloc, plan, slots)?;
    let mut out = Text::new(alloc);
    append_nodes(alloc, &mut out, plan, lines, slots, &counts)?;
    append_end(&mut out, slots)?;
    Ok(out)
}

// What was counted of each node.
#[tactic(auto, unfolding(trace_model::specs::Trace::by_position))]
fn append_nodes(
    alloc: Global,
    out: &mut Text,
    plan: &Plan,
    lines: &[Vec<u32>],
    slots: u32,
    counts: &[NodeCounts],
) -> Result<(), AllocError>
    requires counted { AreCounted plan.now slots counts.now }
    ensures { OnOk result (out.new ≡ out.old ++ by_position (λ n node. node_text plan.now (slice_index_or (map (λ numbers. numbers.items) lines.now) n []) slots n node) 0 plan.now.nodes) }
{
    plan.keeps();
    let nodes = plan.nodes();
    for n in 0..nodes.len() {
        append_node(alloc, out, &nodes[n], lines_of(lines, n), slots, &counts[n])?;
    }
    Ok(())
}

// What is counted of a node, of which the instructions are of these lines.
fn append_node(
    alloc: Global,
    out: &mut Text,
    node: &NodePlan,
    lines: &[u32],
    slots: u32,
    counts: &NodeCounts,
) -> Result<(), AllocError>
    requires places { HasPlaces counts.now.places (length node.now.image.code + 1) }
    ensures { OnOk result (out.new ≡ out.old ++ node_by node.now lines.now slots counts.now) }
{
    append_places(alloc, out, node, lines, &counts.places)?;
    append_threads(out, node, slots, &counts.threads)?;
    append_links(out, node, &counts.links)?;
    Ok(())
}

// The lines of the instructions of the node at a position.
fn lines_of(lines: &[Vec<u32>], n: usize) -> &[u32]
    ensures { result.now ≡ slice_index_or (map (λ numbers. numbers.items) lines.now) n [] }
{
    match lines.get(n) {
        None => &[],
        Some(numbers) => numbers.as_slice(),
    }
}
