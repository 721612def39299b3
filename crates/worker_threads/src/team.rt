//! How the workers of all nodes are run at once.
ghost use Rattle.std.specs.Prelude.{◌≡◌, Some, IfOk, length, slice_get};
ghost use Rattle.std.specs.List.{AllByRecursion};
ghost use Rattle.xs_base.specs.Numbers.{Slot, Position};
ghost use Rattle.plan_cells.specs.declared.ends.Ends as node_ends;
ghost use Rattle.plan_cells.specs.Ends.{CellsRec, AreNewEnds};
ghost use Rattle.core_workers.specs.Worker.{WorkerRec};
ghost use Rattle.core_workers.specs.Run.{IsLeftAt, IsOver};
ghost use Rattle.worker_threads.specs.Team.{AreFresh, ArePlaces, AreLeft, AreParts, IsReady, HasNoTurns, some_have_turns};

use crate::fresh::{Fresh, fresh_nodes};
use crate::node::Left;
use crate::place::{Place, place_of};
use crate::starts::{EachNode, Starts};
use core_workers::{Ended, Lanes, Part};
use plan_cells::Ends;
use std::alloc::{AllocError, Global};
use std::sync::Wait;
use std::sync::atomic::AtomicBool;
use std::thread;
use std::thread::{Scope, Threads, yield_now};
use sys_plan::Plan;
use xs_edge::Gate;

// How often a worker with a processor of its own looks for news before it lets go of it: some microseconds, in which a neighbour runs
// hundreds of slots.
const EAGER_LOOKS: u32 = 100;

/// Runs the nodes of a plan for so many slots, each by a worker of its own over these lanes, and gives what is left of the workers, by
/// position. `ends` are the ends that the lanes have for the nodes. Each worker runs in a thread of its own, where one can be started; the
/// turns of the others are taken in this thread, one after the other. It returns when all workers have ended. The error is want of memory,
/// here or in a worker.
pub fn run_workers<R: Threads + Wait + Sync, G: Gate>(
    rt: &R,
    alloc: Global,
    plan: &Plan,
    lanes: &Lanes,
    ends: Vec<Ends>,
    limit: u32,
    gate: &G,
) -> Result<Vec<Part>, AllocError>
    requires plan { lanes.now.plan ≡ plan.now }
    requires nodes { length ends.items ≡ length plan.now.nodes }
    requires new_ends { (n : Position) (e : node_ends.Ends) → slice_get ends.items n ≡ Some e → AreNewEnds lanes.now n e }
    ensures nodes { IfOk result (λ parts. length parts.items ≡ length plan.now.nodes) }
    ensures at_limit { IfOk result (λ parts. (n : Position) (part : WorkerRec) → slice_get parts.items n ≡ Some part → IsLeftAt lanes.now limit n part) }
    ensures over { IfOk result (λ parts. (n : Position) (part : WorkerRec) → slice_get parts.items n ≡ Some part → IsOver part) }
{
    run_workers_where(rt, alloc, plan, lanes, ends, limit, gate, &EachNode)
}

/// `run_workers`, where the start of a thread is tried only for these nodes.
pub fn run_workers_where<R: Threads + Wait + Sync, G: Gate, S: Starts>(
    rt: &R,
    alloc: Global,
    plan: &Plan,
    lanes: &Lanes,
    ends: Vec<Ends>,
    limit: u32,
    gate: &G,
    starts: &S,
) -> Result<Vec<Part>, AllocError>
    requires plan { lanes.now.plan ≡ plan.now }
    requires nodes { length ends.items ≡ length plan.now.nodes }
    requires new_ends { (n : Position) (e : node_ends.Ends) → slice_get ends.items n ≡ Some e → AreNewEnds lanes.now n e }
    ensures nodes { IfOk result (λ parts. length parts.items ≡ length plan.now.nodes) }
    ensures at_limit { IfOk result (λ parts. (n : Position) (part : WorkerRec) → slice_get parts.items n ≡ Some part → IsLeftAt lanes.now limit n part) }
    ensures over { IfOk result (λ parts. (n : Position) (part : WorkerRec) → slice_get parts.items n ≡ Some part → IsOver part) }
{
    let eager = looks_by_room(rt, ends.len());
    let nodes = fresh_nodes(alloc, plan, lanes, ends, limit, eager)?;
    let refused = &no_flags(alloc, nodes.len())?;
    let all = thread::scope(
        thread::scope_env(),
        rt,
        |scope| -> Result<Vec<Left>, AllocError>
            requires { AreFresh lanes.now limit nodes.items × (length refused.now.items ≡ length lanes.now.plan.nodes) }
            ensures { IfOk result (λ all. AreLeft lanes.entry.now limit all.items) }
        {
            let mut places = places_of(
                scope, starts, rt, alloc, lanes, refused, gate, nodes, limit,
            )?;
            take_turns(rt, gate, &mut places);
            all_left(rt, alloc, lanes, gate, places)
        },
    )?;
    parts_of(alloc, all)
}

// How often the workers of so many nodes look for news without letting go of their processors: never, where they are more than the
// processors of this process, or these cannot be counted.
fn looks_by_room<R: Threads>(rt: &R, nodes: usize) -> u32 {
    match thread::available_parallelism(rt) {
        Ok(processors) if nodes <= processors.get() => EAGER_LOOKS,
        _ => 0,
    }
}

// A flag for each node, which is not set.
fn no_flags(alloc: Global, nodes: usize) -> Result<Vec<AtomicBool>, AllocError>
    ensures count { IfOk result (λ flags. length flags.items ≡ nodes) }
{
    let mut flags = Vec::with_capacity(alloc, nodes)?;
    for _ in 0..nodes {
        flags.push(AtomicBool::new(false))?;
    }
    Ok(flags)
}

// The places of all nodes, by position. The memory for them is there before the first thread is started: none of them waits for a node
// that has no place.
fn places_of<'s, E, S: Starts, R: Wait + Sync, G: Gate>(
    scope: &Scope<'s, E>,
    starts: &S,
    rt: &'s R,
    alloc: Global,
    lanes: &'s Lanes,
    refused: &'s Vec<AtomicBool>,
    gate: &'s G,
    nodes: Vec<Fresh>,
    limit: u32,
) -> Result<Vec<Place<'s>>, AllocError>
    requires fresh { AreFresh lanes.now limit nodes.items }
    requires flags { length refused.now.items ≡ length lanes.now.plan.nodes }
    ensures places { IfOk result (λ places. ArePlaces lanes.now limit places.items) }
    ensures ready { IfOk result (λ places. AllByRecursion IsReady places.items) }
{
    let mut places = Vec::with_capacity(alloc, nodes.len())?;
    for node in nodes {
        places.push(place_of(scope, starts, rt, lanes, refused, gate, node, limit))?;
    }
    Ok(places)
}

// Takes the turns of the nodes that this thread runs, one after the other, until all their runs are over.
fn take_turns<'s, R: Wait, G: Gate>(rt: &R, gate: &G, places: &mut Vec<Place<'s>>)
    requires ready { AllByRecursion IsReady places.old.items }
    ensures over { AllByRecursion HasNoTurns places.new.items }
    ensures places { (cells : CellsRec) (limit : Slot) → ArePlaces cells limit places.old.items → ArePlaces cells limit places.new.items }
{
    for _ in rt.forever() {
        if !take_one_turn_each(rt, gate, places) {
            return;
        }
        yield_now();
    }
}

// One turn of each of them. It tells whether more are left of any.
fn take_one_turn_each<'s, R: Wait, G: Gate>(rt: &R, gate: &G, places: &mut Vec<Place<'s>>) -> bool
    requires ready { AllByRecursion IsReady places.old.items }
    ensures ready { AllByRecursion IsReady places.new.items }
    ensures goes_on { result ≡ some_have_turns places.new.items }
    ensures places { (cells : CellsRec) (limit : Slot) → ArePlaces cells limit places.old.items → ArePlaces cells limit places.new.items }
{
    let mut some = false;
    for n in 0..places.len() {
        some = places[n].turn(rt, gate) || some;
    }
    some
}

// Waits for the ends of all runs in threads, and gives what is left of all nodes. The runs in this thread are over.
fn all_left<'s, R: Threads + Wait, G: Gate>(
    rt: &R,
    alloc: Global,
    lanes: &'s Lanes,
    gate: &G,
    places: Vec<Place<'s>>,
) -> Result<Vec<Left>, AllocError>
    requires over { AllByRecursion HasNoTurns places.items }
    requires places { (limit : Slot) × ArePlaces lanes.now limit places.items }
    ensures all { (limit : Slot) → ArePlaces lanes.now limit places.entry.items → IfOk result (λ all. AreLeft lanes.now limit all.items) }
{
    let mut all = Vec::with_capacity(alloc, places.len())?;
    for place in places {
        all.push(place.left(rt, lanes, gate))?;
    }
    Ok(all)
}

// What is left of all workers, where each has run all slots. The error is want of memory, also where it was wanting in one of them.
fn parts_of(alloc: Global, all: Vec<Left>) -> Result<Vec<Part>, AllocError>
    ensures parts { (cells : CellsRec) (limit : Slot) → AreLeft cells limit all.items → IfOk result (λ parts. AreParts cells limit parts.items) }
{
    let mut parts = Vec::with_capacity(alloc, all.len())?;
    for left in all {
        let Left { part, ended } = left;
        match ended {
            Ended::Finished => parts.push(part)?,
            Ended::Stopped | Ended::Memory => return Err(AllocError),
        }
    }
    Ok(parts)
}
