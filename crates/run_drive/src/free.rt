//! `drive_free`, which runs each node by a worker of its own.
ghost use Rattle.std.specs.Prelude.{◌≡◌, IfOk};

use crate::error::DriveError;
use core_workers::{Finished, Lanes, Way};
use std::alloc::Global;
use std::sync::{Arc, Wait};
use std::thread::Threads;
use sys_plan::Plan;
use worker_threads::run_workers;
use xs_edge::Gate;

/// Runs a plan for so many slots, each node by a worker of its own, in a thread of its own where one can be started: as far ahead of the
/// others as what it has seen of its links and wires lets it. Each worker passes the gate before each turn. What the plan has become is the same as
/// by `drive_serial`, in whatever order the workers ran. The error is want of memory. It may wait for the workers. See
/// docs/LOOKAHEAD.md.
pub fn drive_free<R: Threads + Wait + Sync, G: Gate>(
    rt: &R,
    alloc: Global,
    plan: &Arc<Plan>,
    limit: u32,
    gate: &G,
) -> Result<Finished, DriveError>
    ensures at_limit { IfOk result (λ f. f ≡ record { plan = plan.now.value; limit = limit; way = Way.Workers; rounds = 0 }) }
{
    let (lanes, ends) = Lanes::new(alloc, plan)?;
    let parts = run_workers(rt, alloc, plan, &lanes, ends, limit, gate)?;
    Ok(lanes.finish(alloc, parts, limit)?)
}
