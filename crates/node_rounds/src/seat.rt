//! `Seat`, a node with the batches that lie ready for it.
ghost use Rattle.std.specs.Prelude.{◌≡◌, false, [], ◌∷◌, ◌++◌, OnOk};
ghost use Rattle.node_runners.specs.Busy.{HasSteppedBusy};
ghost use Rattle.node_rounds.specs.Seats.{IsNext, MayTake, HasTaken, HasWorked, heard};

use node_runners::NodeRunner;
use std::alloc::{AllocError, Global};
use std::collections::VecDeque;
use xs_base::Batch;
use xs_edge::Gate;

/// A batch that lies ready for a node: what the link or wire that comes to an end, 0 to 39: link ends, then ends of wires, carried from where
/// the node had seen it on and before the slot `to`.
#[derive(Drop)]
pub(crate) struct Handed {
    pub(crate) end: u8,
    pub(crate) to: u32,
    pub(crate) batch: Batch,
}

/// A node, and the batches that lie ready for it, in the order in which they are to be taken.
#[derive(Drop)]
pub(crate) struct Seat {
    pub(crate) runner: NodeRunner,
    pub(crate) handed: VecDeque<Handed>,
    // Memory was wanting where it worked last.
    pub(crate) short: bool,
}

impl Seat {
    /// A node for which nothing lies ready.
    pub(crate) fn new(alloc: Global, runner: NodeRunner) -> Seat
        ensures runner { result.runner ≡ runner }
        ensures none { result.handed.items ≡ [] }
    {
        Seat {
            runner,
            handed: VecDeque::new(alloc),
            short: false,
        }
    }

    /// A batch more lies ready for the node, behind the others. The error is want of memory, and leaves nothing that goes on.
    pub(crate) fn hand(&mut self, handed: Handed) -> Result<(), AllocError>
        ensures runner { self.new.runner ≡ self.old.runner }
        ensures handed { OnOk result (self.new.handed.items ≡ self.old.handed.items ++ handed ∷ []) }
    {
        match self.handed.push_back(handed) {
            Ok(()) => Ok(()),
            Err(_) => Err(AllocError),
        }
    }

    /// Passes the gate; then the node takes the batches that lie ready for it, and runs as far as it may. Where memory is wanting the seat is
    /// short, and nothing is said of it.
    pub(crate) fn work<G: Gate>(&mut self, gate: &G)
        requires ready { MayTake self.old }
        requires busy { HasSteppedBusy self.old.runner }
        ensures worked { self.new.short ≡ false → HasWorked self.old self.new }
    {
        gate.pass(u32::from(self.runner.node()));
        self.short = self.take_and_run().is_err();
    }

    // The node takes the batches that lie ready for it, and runs as far as it may.
    fn take_and_run(&mut self) -> Result<(), AllocError>
        requires ready { MayTake self.old }
        requires busy { HasSteppedBusy self.old.runner }
        ensures worked { OnOk result (HasWorked self.old self.new) }
    {
        self.take_all()?;
        self.runner.run_on()?;
        // What every runner keeps is told where its clock is read.
        let _clock = self.runner.clock();
        Ok(())
    }

    // The node takes the batches that lie ready for it, one after the other.
    fn take_all(&mut self) -> Result<(), AllocError>
        requires ready { MayTake self.old }
        ensures all { OnOk result (HasTaken self.old self.new) }
    {
        while let Some(handed) = self.handed.pop_front() {
            take(&mut self.runner, handed)?;
        }
        Ok(())
    }
}

// A node takes a batch.
fn take(runner: &mut NodeRunner, handed: Handed) -> Result<(), AllocError>
    requires next { IsNext runner.old.plan runner.old.node runner.old.horizon handed }
    ensures taken { OnOk result (runner.new ≡ record runner.old { horizon = heard runner.old.horizon handed }) }
{
    let Handed { end, to, batch } = handed;
    match runner.take(end, batch, to) {
        Ok(()) => Ok(()),
        Err(_) => Err(AllocError),
    }
}
