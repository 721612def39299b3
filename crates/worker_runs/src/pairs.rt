//! What is tried with the workers of two nodes.
ghost use Rattle.std.specs.Prelude.{All};
ghost use Rattle.core_workers.specs.Worker.{IsOpen};

use crate::gates::Passed;
use crate::turns::takes;
use crate::workers::{FAR, LIMIT, last_worker};
use core_workers::{Ended, Lanes, Turn, Worker};
use link_logs::Cause;
use std::alloc::{AllocError, Global};
use std::sync::{Arc, Wait};
use test_plans::pair;
use xs_edge::OpenGate;

/// A case of two nodes.
#[derive(Clone, Copy)]
pub enum Case {
    /// They run ahead of each other, to the end.
    Ahead,
    /// The second is stopped, and the first hears of it.
    Stop,
    /// Their turns pass a gate.
    Gate,
    /// The first runs to the end by itself, and the second goes on.
    LastSlot,
}

/// Whether the case holds of the workers of two nodes with a link between them. The error is want of memory.
pub fn holds_of_pair<R: Wait>(rt: &R, alloc: Global, case: Case) -> Result<bool, AllocError> {
    let plan = Arc::new(alloc, pair(alloc, 5)?)?;
    let (lanes, mut ends) = Lanes::new(alloc, &plan)?;
    let second = last_worker(alloc, &plan, &lanes, &mut ends, 1, limit_of_second(case))?;
    let first = last_worker(alloc, &plan, &lanes, &mut ends, 0, LIMIT)?;
    Ok(match case {
        Case::Ahead => run_ahead(first, second),
        Case::Stop => stops(rt, first, second),
        Case::Gate => passes(rt, first, second),
        Case::LastSlot => ends_with_last_slot(rt, first, second),
    })
}

// The limit of the second node: in one case it goes on where the first ends.
fn limit_of_second(case: Case) -> u32 {
    match case {
        Case::LastSlot => FAR,
        Case::Ahead | Case::Stop | Case::Gate => LIMIT,
    }
}

// Each runs as far ahead as what it has seen of the other lets it.
fn run_ahead(mut first: Worker<'_>, mut second: Worker<'_>) -> bool
    requires first { All IsOpen first.ends.outgoing.items }
    requires second { All IsOpen second.ends.outgoing.items }
{
    let turns = [
        Turn::Ran { from: 0, to: 5 },
        Turn::Blocked { end: 7, seen: 0 },
    ];
    let begins = takes(&mut first, &turns);
    let turns = [
        Turn::Ran { from: 0, to: 10 },
        Turn::Blocked { end: 0, seen: 5 },
    ];
    let follows = takes(&mut second, &turns);
    let ends = takes(&mut first, &[Turn::Finished]);
    let both_end = takes(&mut second, &[Turn::Finished; 2]) && ends;
    let _ = (first.parts(), second.parts());
    begins && follows && both_end
}

// What was published before the log was closed is heard first.
fn stops<R: Wait>(rt: &R, mut first: Worker<'_>, mut second: Worker<'_>) -> bool
    requires first { All IsOpen first.ends.outgoing.items }
    requires second { All IsOpen second.ends.outgoing.items }
{
    let begins = takes(&mut second, &[Turn::Ran { from: 0, to: 5 }]);
    second.stop(rt, Cause::Memory);
    let turns = [Turn::Ran { from: 0, to: 10 }, Turn::Stopped { link: 1 }];
    let hears = takes(&mut first, &turns);
    first.stop(rt, Cause::Neighbour { link: 1 });
    begins && hears
}

// One turn takes the run of the first to its end, and the second has no need to wait then.
fn passes<R: Wait>(rt: &R, mut first: Worker<'_>, mut second: Worker<'_>) -> bool
    requires first { All IsOpen first.ends.outgoing.items }
    requires second { All IsOpen second.ends.outgoing.items }
{
    let gate = Passed::new();
    let _ = first.turn(&gate);
    let _ = second.turn(&gate);
    let first_ended = first.run(rt, &gate);
    let second_ended = second.run(rt, &OpenGate);
    first_ended == Ended::Finished && second_ended == Ended::Finished && gate.digits() == 10_11_10
}

// The turns of the neighbour come first, so that the run does not have to wait. It publishes all its slots, in a log that is still open.
fn ends_with_last_slot<R: Wait>(rt: &R, mut first: Worker<'_>, mut second: Worker<'_>) -> bool
    requires first { All IsOpen first.ends.outgoing.items }
    requires second { All IsOpen second.ends.outgoing.items }
{
    let begins = takes(&mut first, &[Turn::Ran { from: 0, to: 5 }]);
    let follows = takes(&mut second, &[Turn::Ran { from: 0, to: 10 }]);
    let ended = first.run(rt, &OpenGate);
    let turns = [
        Turn::Ran { from: 10, to: 17 },
        Turn::Blocked { end: 0, seen: 12 },
    ];
    let goes_on = takes(&mut second, &turns);
    begins && follows && ended == Ended::Finished && goes_on
}
