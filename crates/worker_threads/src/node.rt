//! What the thread of a node does.
ghost use Rattle.std.specs.Prelude.{◌≡◌};
ghost use Rattle.worker_threads.specs.Team.{IsFresh, IsReturned};

use crate::fresh::Fresh;
use core_workers::{Ended, Lanes, Part, Worker};
use std::sync::Wait;
use std::sync::atomic::{AtomicBool, Ordering};
use xs_edge::Gate;

/// What is left of a worker, and what came of its run.
#[derive(Drop)]
pub(crate) struct Left {
    pub(crate) part: Part,
    pub(crate) ended: Ended,
}

/// What is given back of a node.
#[derive(Drop)]
pub(crate) enum Returned {
    /// Its worker has run.
    Ran(Left),
    /// The node is as it was: not a turn was taken.
    Unstarted(Fresh),
}

/// Runs the worker of a node to its end. Where the start of its thread was refused, the node is given back as it was.
pub(crate) fn run_node<R: Wait, G: Gate>(
    rt: &R,
    lanes: &Lanes,
    refused: &AtomicBool,
    gate: &G,
    node: Fresh,
) -> Returned
    requires fresh { IsFresh lanes.now node }
    ensures returned { IsReturned lanes.now node.runner.horizon.limit node.runner.node result }
{
    if refused.load(Ordering::SeqCst) {
        return Returned::Unstarted(node);
    }
    let Fresh {
        runner,
        ends,
        eager,
    } = node;
    let mut worker = Worker::new(runner, lanes, ends);
    worker.look_eagerly(eager);
    let ended = worker.run(rt, gate);
    let part = worker.parts();
    Returned::Ran(Left { part, ended })
}
