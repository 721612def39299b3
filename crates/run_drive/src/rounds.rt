//! `drive_rounds`, which runs all nodes round by round.
ghost use Rattle.std.specs.Prelude.{◌≡◌, IfOk};
ghost use Rattle.round_laws.specs.Rounds.{rounds};

use crate::error::DriveError;
use core_workers::{Finished, Way};
use known_value::Known;
use node_rounds::RoundRun;
use round_laws::rounds_by_first;
use std::alloc::{AllocError, Global};
use std::sync::Arc;
use std::thread::Threads;
use sys_plan::Plan;
use xs_edge::Gate;

/// Runs a plan for so many slots, round by round: in a round all nodes run as far as they may by what the others had run after the round
/// before, each in a thread of its own where one can be made. No more rounds are made than it takes until all nodes are at the limit. Each
/// node passes the gate in each round. What the plan has become is the same as by `drive_serial`. The error is want of memory. It waits for
/// nobody but the threads that it makes, and always returns. See docs/LOOKAHEAD.md.
pub fn drive_rounds<R: Threads + Sync, G: Gate>(
    rt: &R,
    alloc: Global,
    plan: &Arc<Plan>,
    limit: u32,
    gate: &G,
) -> Result<Finished, DriveError>
    ensures at_limit { IfOk result (λ f. f ≡ record { plan = plan.now.value; limit = limit; way = Way.Rounds; rounds = rounds plan.now.value limit }) }
{
    rounds_by_first();
    plan.keeps();
    let run = run_all_rounds(rt, alloc, plan, limit, gate)?;
    let made = run.passes();
    let (runners, totals) = run.into_parts(alloc)?;
    Ok(Finished::of_rounds(Known::of(plan), limit, runners, totals, made))
}

// Makes passes until all nodes are at the limit. The error is want of memory.
fn run_all_rounds<R: Threads + Sync, G: Gate>(
    rt: &R,
    alloc: Global,
    plan: &Arc<Plan>,
    limit: u32,
    gate: &G,
) -> Result<RoundRun, AllocError>
    ensures run { IfOk result (λ run. run ≡ record { plan = plan.now.value; limit = limit; passes = rounds plan.now.value limit }) }
{
    rounds_by_first();
    plan.keeps();
    let mut run = RoundRun::new(alloc, plan, limit)?;
    while !run.is_at_limit() {
        let next = run.pass(rt, alloc, gate)?;
        run = next;
    }
    Ok(run)
}
