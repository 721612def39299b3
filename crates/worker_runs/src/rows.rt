//! What is tried with the workers of three nodes in a row.
ghost use Rattle.std.specs.Prelude.{All};
ghost use Rattle.core_workers.specs.Worker.{IsOpen};

use crate::turns::takes;
use crate::workers::{FAR, LIMIT, last_worker};
use core_workers::{Ended, Lanes, Turn, Worker};
use link_logs::Cause;
use std::alloc::{AllocError, Global};
use std::sync::{Arc, Wait};
use test_plans::row_of_three;
use xs_edge::OpenGate;

/// Whether the node in the middle stops where the first did, and the third where it did. The error is want of memory.
pub fn stops_in_row<R: Wait>(rt: &R, alloc: Global) -> Result<bool, AllocError> {
    let plan = Arc::new(alloc, row_of_three(alloc, 5)?)?;
    let (lanes, mut ends) = Lanes::new(alloc, &plan)?;
    let third = last_worker(alloc, &plan, &lanes, &mut ends, 2, FAR)?;
    let second = last_worker(alloc, &plan, &lanes, &mut ends, 1, LIMIT)?;
    let first = last_worker(alloc, &plan, &lanes, &mut ends, 0, LIMIT)?;
    Ok(stop(rt, first, second, third))
}

// The third hears of it as it would of any neighbour, after the ten slots that the second has run.
fn stop<R: Wait>(
    rt: &R,
    mut first: Worker<'_>,
    mut second: Worker<'_>,
    mut third: Worker<'_>,
) -> bool
    requires first { All IsOpen first.ends.outgoing.items }
    requires second { All IsOpen second.ends.outgoing.items }
    requires third { All IsOpen third.ends.outgoing.items }
{
    let begins = takes(&mut first, &[Turn::Ran { from: 0, to: 5 }]);
    let waits = takes(&mut third, &[Turn::Ran { from: 0, to: 5 }]);
    first.stop(rt, Cause::Memory);
    let ended = second.run(rt, &OpenGate);
    let turns = [Turn::Ran { from: 5, to: 15 }, Turn::Stopped { link: 2 }];
    let hears = takes(&mut third, &turns);
    begins && waits && ended == Ended::Stopped && hears
}
