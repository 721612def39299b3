//! `Place`, where a node is run: in a thread of its own, or by the caller.
ghost use Rattle.std.specs.Prelude.{◌≡◌, ◌<◌, false, length, IfOk, IfErr};
ghost use Rattle.xs_base.specs.Numbers.{Slot, Position};
ghost use Rattle.plan_cells.specs.Ends.{CellsRec};
ghost use Rattle.worker_threads.specs.Team.{IsFresh, IsLeft, IsReady, IsReturned, IsPlace, has_turns, HasNoTurns};

use crate::fresh::Fresh;
use crate::here::Here;
use crate::node::{Left, Returned, run_node};
use crate::starts::Starts;
use core_workers::Lanes;
use std::snapshot::Snapshot;
use std::sync::Wait;
use std::sync::atomic::{AtomicBool, Ordering};
use std::thread::{Promise, PromisedHandle, Scope, SpawnError, Threads};
use xs_edge::Gate;

/// That a thread gives back the node at a position of these lanes, in a run of so many slots.
#[derive(Drop)]
pub(crate) struct OfNode {
    pub(crate) lanes: Snapshot<Lanes>,
    pub(crate) node: u8,
    pub(crate) limit: u32,
}

impl Promise<Returned> for OfNode {
    ghost use Rattle.worker_threads.specs.Team.{IsReturned};

    ghost kept_by = { λ p r. IsReturned p.lanes.value p.limit p.node r };
}

/// Where a node is run.
#[derive(Drop)]
pub(crate) enum Place<'a> {
    /// In a thread.
    There(PromisedHandle<Returned, OfNode>),
    /// By the caller.
    Here(Here<'a>),
    /// Nowhere: its run is over.
    Over(Left),
}

/// The place of a node before its first slot: a thread of the scope, where one is tried and can be started. The flag of the node's position
/// is set where not.
pub(crate) fn place_of<'s, E, S: Starts, R: Wait + Sync, G: Gate>(
    scope: &Scope<'s, E>,
    starts: &S,
    rt: &'s R,
    lanes: &'s Lanes,
    refused: &'s Vec<AtomicBool>,
    gate: &'s G,
    node: Fresh,
    limit: u32,
) -> Place<'s>
    requires fresh { IsFresh lanes.now node }
    requires limit { node.runner.horizon.limit ≡ limit }
    requires flag { node.runner.node < length refused.now.items }
    ensures place { IsPlace lanes.now limit node.runner.node result }
    ensures ready { IsReady result }
{
    let at = node.runner.node();
    let refused = &refused[at as usize];
    let promise = OfNode {
        lanes: Snapshot::of(lanes),
        node: at,
        limit,
    };
    match start(
        scope,
        starts.tries(at),
        promise,
        move || -> Returned
            requires { IsFresh lanes.now node }
            ensures { IsReturned lanes.entry.now node.runner.horizon.limit node.runner.node result }
        { run_node(rt, lanes, refused, gate, node) },
    ) {
        Ok(handle) => Place::There(handle),
        Err(back) => {
            // The closure gives the node back where it finds this.
            refused.store(true, Ordering::SeqCst);
            match (back.value)() {
                Returned::Unstarted(node) => Place::Here(Here::new(lanes, node)),
                Returned::Ran(left) => Place::Over(left),
            }
        }
    }
}

// Starts a thread of the scope, or hands the closure back where none is tried or none can be made.
fn start<'s, E, F: FnOnce() -> Returned + Send + 's>(
    scope: &Scope<'s, E>,
    tries: bool,
    promise: OfNode,
    run: F,
) -> Result<PromisedHandle<Returned, OfNode>, SpawnError<F>>
    requires runs { F.pre run }
    requires keeps { (r : Returned) → F.post run r → IsReturned promise.lanes.value promise.limit promise.node r }
    ensures ok { IfOk result (λ h. h.promise ≡ promise) }
    ensures err { IfErr result (λ e. e.value ≡ run) }
{
    if tries {
        scope.spawn_with(promise, run)
    } else {
        Err(SpawnError { value: run })
    }
}

impl<'a> Place<'a> {
    ghost use Rattle.worker_threads.specs.Team.{IsReady, IsPlace};

    /// Takes a turn of a node that is run by the caller, and tells whether more of them are left.
    pub(crate) fn turn<R: Wait, G: Gate>(&mut self, rt: &R, gate: &G) -> bool
        requires ready { IsReady self.old }
        ensures ready { IsReady self.new }
        ensures goes_on { result ≡ has_turns self.new }
        ensures stays { (cells : CellsRec) (limit : Slot) (n : Position) → IsPlace cells limit n self.old → IsPlace cells limit n self.new }
    {
        match self {
            Place::There(_) | Place::Over(_) => false,
            Place::Here(here) => here.turn(rt, gate),
        }
    }

    /// Waits for the end of the node's run in a thread, and gives what is left of it. Where the caller runs the node, the run is over.
    pub(crate) fn left<R: Threads + Wait, G: Gate>(self, rt: &R, lanes: &'a Lanes, gate: &G) -> Left
        requires over { HasNoTurns self }
        requires place { (limit : Slot) × (n : Position) × IsPlace lanes.now limit n self }
        ensures left { (limit : Slot) (n : Position) → IsPlace lanes.now limit n self.entry → IsLeft lanes.now limit n result }
    {
        match self {
            Place::There(handle) => match handle.join(rt) {
                Returned::Ran(left) => left,
                Returned::Unstarted(node) => Here::new(lanes, node).finish(rt, gate),
            },
            Place::Here(here) => here.left(),
            Place::Over(left) => left,
        }
    }
}
