//! What is tried with two workers in two threads, of which one sleeps.
ghost use Rattle.std.specs.Prelude.{All};
ghost use Rattle.core_workers.specs.Worker.{IsOpen};

use crate::workers::{LIMIT, last_worker};
use core_workers::{Ended, Lanes, Worker};
use std::alloc::{AllocError, Global};
use std::sync::{Arc, Wait};
use std::thread::{self, Threads};
use std::time::{Clock, Duration};
use test_plans::pair;
use xs_edge::OpenGate;

/// Whether a node that sleeps, since it has seen nothing of its neighbour, wakes when this begins, and both come to the end. It would
/// sleep for ever where a publish did not wake it. The error is want of memory.
pub fn wakes<R: Threads + Wait + Clock + Sync>(rt: &R, alloc: Global) -> Result<bool, AllocError> {
    let plan = Arc::new(alloc, pair(alloc, 5)?)?;
    let (lanes, mut ends) = Lanes::new(alloc, &plan)?;
    let sleeper = last_worker(alloc, &plan, &lanes, &mut ends, 1, LIMIT)?;
    let late = last_worker(alloc, &plan, &lanes, &mut ends, 0, LIMIT)?;
    let (slept, began) = thread::join(rt, || run(rt, sleeper), || run_late(rt, late));
    Ok(slept == Ended::Finished && began == Ended::Finished)
}

fn run<R: Wait>(rt: &R, mut worker: Worker<'_>) -> Ended
    requires { All IsOpen worker.ends.outgoing.items }
{
    worker.run(rt, &OpenGate)
}

// Begins when the other sleeps.
fn run_late<R: Wait + Clock>(rt: &R, worker: Worker<'_>) -> Ended
    requires { All IsOpen worker.ends.outgoing.items }
{
    thread::sleep(rt, Duration::from_millis(100));
    run(rt, worker)
}
