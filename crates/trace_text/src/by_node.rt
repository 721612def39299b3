//! What the trace has node by node.
ghost use Rattle.std.specs.Prelude.{◌≡◌, ◌<◌, ◌≤◌, ◌++◌, length, OnOk};
ghost use Rattle.trace_model.specs.Trace.{by_position};

use crate::ended::EndedRun;
use crate::node_lines::{append_halted_lines, append_memory_lines, append_more_line};
use std::alloc::AllocError;
use sys_plan::NodePlan;
use xs_base::Text;

/// What is written for each node of a run.
pub(crate) trait NodePiece {
    ghost use Rattle.std.specs.Prelude.{ℕ, List};
    ghost use Rattle.sys_plan.specs.declared.NodePlan.{NodePlan};
    ghost use Rattle.trace_model.specs.Trace.{EndRec};

    // The text for the node at a position.
    ghost piece: { EndRec → ℕ → NodePlan → List ℕ };

    /// Writes it for the node at position k. The error is want of memory.
    fn append_at<R: EndedRun>(
        out: &mut Text,
        k: u8,
        node: &NodePlan,
        run: &R,
    ) -> Result<(), AllocError>
        requires position { k < length (R.plan run.now).nodes }
        ensures { OnOk result (out.new ≡ out.old ++ piece (R.end run.now) k node.now) };
}

/// How many events were left out, where some were.
pub(crate) struct More;

impl NodePiece for More {
    ghost use Rattle.trace_model.specs.Trace.{more_at};

    ghost piece = { more_at };

    fn append_at<R: EndedRun>(
        out: &mut Text,
        k: u8,
        node: &NodePlan,
        run: &R,
    ) -> Result<(), AllocError> {
        append_more_line(out, node.number, run.more(k))
    }
}

/// The line of each halted thread.
pub(crate) struct Halted;

impl NodePiece for Halted {
    ghost use Rattle.trace_model.specs.Trace.{halted_at};

    ghost piece = { halted_at };

    fn append_at<R: EndedRun>(
        out: &mut Text,
        k: u8,
        node: &NodePlan,
        run: &R,
    ) -> Result<(), AllocError> {
        append_halted_lines(out, node.number, run.core(k))
    }
}

/// The line of each word of the memory that isn't 0.
pub(crate) struct Memory;

impl NodePiece for Memory {
    ghost use Rattle.trace_model.specs.Trace.{memory_at};

    ghost piece = { memory_at };

    fn append_at<R: EndedRun>(
        out: &mut Text,
        k: u8,
        node: &NodePlan,
        run: &R,
    ) -> Result<(), AllocError> {
        append_memory_lines(out, node.number, run.core(k))
    }
}

/// Writes a piece for each node, by position. The error is want of memory.
pub(crate) fn append_by_node<P: NodePiece, R: EndedRun>(
    out: &mut Text,
    nodes: &[NodePlan],
    run: &R,
) -> Result<(), AllocError>
    requires nodes { nodes.now ≡ (R.plan run.now).nodes }
    requires few { length nodes.now ≤ 16 }
    ensures { OnOk result (out.new ≡ out.old ++ by_position (P.piece (R.end run.now)) 0 nodes.now) }
{
    for k in 0..nodes.len() {
        P::append_at(out, k as u8, &nodes[k], run)?;
    }
    Ok(())
}
