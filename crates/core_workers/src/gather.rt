//! How a run is gathered at its limit from what the workers of all nodes have left.
ghost use Rattle.std.specs.Prelude.{◌≡◌, true, Some, IfOk, OnOk, length, map, slice_get};
ghost use Rattle.std.specs.List.{AllByRecursion};
ghost use Rattle.xs_base.specs.Numbers.{Position};
ghost use Rattle.sys_plan.specs.Plan.{IsPlan};
ghost use Rattle.core_workers.specs.Worker.{WorkerRec, IsWorker};
ghost use Rattle.core_workers.specs.Run.{IsLeftAt};
ghost use Rattle.core_workers.specs.Gathered.{sent_in};

use crate::worker::Part;
use finished_runs::FinishedRun;
use known_value::Known;
use link_logs::Log;
use node_runners::NodeRunner;
use plan_cells::{Ends, PlanCells};
use plan_stories::{PlanStory, totals_in};
use std::alloc::{AllocError, Global};

/// The run of which the workers of all nodes of these cells have left these parts, by position, each at the limit. The totals are those that the logs of the cells have counted. The error is want of memory, and leaves nothing.
pub(crate) fn gather(
    alloc: Global,
    cells: PlanCells,
    parts: Vec<Part>,
    limit: u32,
) -> Result<FinishedRun, AllocError>
    requires plan { IsPlan cells.plan }
    requires nodes { length parts.items ≡ length cells.plan.nodes }
    requires at_limit { (n : Position) (part : WorkerRec) → slice_get parts.items n ≡ Some part → IsLeftAt cells limit n part }
    ensures run { IfOk result (λ run. run ≡ record { plan = cells.plan; limit = limit; apart = true }) }
{
    let plan = Known::of(cells.plan());
    let (runners, ends) = take_apart(alloc, parts)?;
    let logs = cells.logs(alloc, ends)?;
    let totals = totals_of(alloc, logs)?;
    let run = FinishedRun::of_runners(plan, limit, runners, totals);
    Ok(run)
}

// The nodes of parts and their ends, in order. The error is want of memory.
fn take_apart(alloc: Global, parts: Vec<Part>) -> Result<(Vec<NodeRunner>, Vec<Ends>), AllocError>
    ensures runners { IfOk result (λ apart. apart.0.items ≡ map (λ (part : WorkerRec). part.runner) parts.items) }
    ensures ends { IfOk result (λ apart. apart.1.items ≡ map (λ (part : WorkerRec). part.ends) parts.items) }
    ensures workers { OnOk result (AllByRecursion IsWorker parts.items) }
{
    let mut runners = Vec::new(alloc);
    let mut ends = Vec::new(alloc);
    for part in parts {
        let (runner, own) = part.apart();
        runners.push(runner)?;
        ends.push(own)?;
    }
    Ok((runners, ends))
}

// How many tokens, or levels of a wire, and how many credits, the arc of each of these logs has carried, read or not. The error is want of memory.
fn totals_of(alloc: Global, logs: Vec<Log<PlanStory>>) -> Result<Vec<(u64, u64)>, AllocError>
    ensures { IfOk result (λ totals. totals.items ≡ map sent_in logs.items) }
{
    let mut totals = Vec::new(alloc);
    for log in logs {
        totals.push(totals_in(&log))?;
    }
    Ok(totals)
}
