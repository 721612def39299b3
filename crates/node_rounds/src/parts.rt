//! What is left of a run that has gone round by round.
ghost use Rattle.std.specs.Prelude.{◌≡◌, IfOk, map};
ghost use Rattle.node_rounds.specs.Parts.{runner_of, sent_by};

use crate::seat::Seat;
use node_runners::NodeRunner;
use plan_lanes::Lane;
use plan_stories::totals_in;
use std::alloc::{AllocError, Global};

/// The nodes of these seats. The error is want of memory.
pub(crate) fn runners_in(alloc: Global, seats: Vec<Seat>) -> Result<Vec<NodeRunner>, AllocError>
    ensures { IfOk result (λ runners. runners.items ≡ map runner_of seats.items) }
{
    let mut runners = Vec::with_capacity(alloc, seats.len())?;
    for seat in seats {
        runners.push(seat.runner)?;
    }
    Ok(runners)
}

/// How many tokens, and how many credits, each of these lanes has carried. The error is want of memory.
pub(crate) fn totals_in_all(alloc: Global, lanes: &[Lane]) -> Result<Vec<(u64, u64)>, AllocError>
    ensures { IfOk result (λ totals. totals.items ≡ map sent_by lanes.now) }
{
    let mut totals = Vec::with_capacity(alloc, lanes.len())?;
    for lane in lanes {
        totals.push(totals_in(&lane.log))?;
    }
    Ok(totals)
}
