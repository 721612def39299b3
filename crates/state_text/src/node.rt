//! The lines of a node.
ghost use Rattle.std.specs.Prelude.{◌≡◌, ◌++◌, OnOk};
ghost use Rattle.trace_model.specs.Trace.{by_position};
ghost use Rattle.look_model.specs.Waits.{thread_lines};
ghost use Rattle.look_model.specs.States.{node_lines};

use crate::network::{append_chans, append_ends, append_inputs};
use crate::runs::{Seat, append_thread};
use std::alloc::{AllocError, Global};
use sys_plan::Plan;
use xs_base::Text;
use xs_model::Thread;

/// The lines of the threads, the link ends, the inputs and the channel ends of the node at a position. The error is want of memory.
pub(crate) fn append_node(
    alloc: Global,
    out: &mut Text,
    plan: &Plan,
    n: u8,
    seat: &Seat,
) -> Result<(), AllocError>
    requires printer { seat.now.printer.now ≡ seat.now.node.now.image }
    ensures { OnOk result (out.new ≡ out.old
        ++ node_lines plan.now seat.now.slot n seat.now.node.now seat.now.lines.now seat.now.state.now) }
{
    let state = seat.state;
    append_threads(alloc, out, seat, &state.threads)?;
    append_ends(out, plan, n, seat.node, &state.ends)?;
    append_inputs(out, seat.node, state, &state.inputs)?;
    append_chans(out, seat.node, &state.chans)
}

// The lines of its threads.
#[tactic(auto, unfolding(trace_model::specs::Trace::by_position))]
fn append_threads(
    alloc: Global,
    out: &mut Text,
    seat: &Seat,
    threads: &[Thread; 8],
) -> Result<(), AllocError>
    requires printer { seat.now.printer.now ≡ seat.now.node.now.image }
    ensures { OnOk result (out.new ≡ out.old
        ++ by_position (thread_lines seat.now.node.now seat.now.lines.now seat.now.slot seat.now.state.now) 0 threads.now) }
{
    for k in 0..8u8 {
        append_thread(alloc, out, seat, k, &threads[k as usize])?;
    }
    Ok(())
}
