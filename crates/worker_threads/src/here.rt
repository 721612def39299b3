//! `Here`, a worker whose turns the caller takes.
ghost use Rattle.std.specs.Prelude.{◌≡◌, false};
ghost use Rattle.xs_base.specs.Numbers.{Slot, Position};
ghost use Rattle.plan_cells.specs.Ends.{CellsRec};
ghost use Rattle.worker_threads.specs.Team.{IsFresh, IsLeft, MayGoOn, is_going};

use crate::fresh::Fresh;
use crate::node::Left;
use core_workers::{Ended, Lanes, Turn, Worker};
use link_logs::Cause;
use std::sync::Wait;
use std::thread::yield_now;
use xs_edge::Gate;

/// A worker for which no thread could be started, and what has come of its run, once it is over.
#[derive(Drop)]
pub(crate) struct Here<'a> {
    pub(crate) worker: Worker<'a>,
    pub(crate) ended: Option<Ended>,
}

impl<'a> Here<'a> {
    ghost use Rattle.worker_threads.specs.Team.{IsHere};

    /// A node's worker before its first turn.
    pub(crate) fn new(lanes: &'a Lanes, node: Fresh) -> Here<'a>
        requires fresh { IsFresh lanes.now node }
        ensures here { IsHere lanes.now node.runner.horizon.limit node.runner.node result }
    {
        let Fresh { runner, ends, .. } = node;
        Here {
            worker: Worker::new(runner, lanes, ends),
            ended: None,
        }
    }

    /// Takes one turn, unless the run is over, and tells whether it goes on. It looks for news, and does not wait for them. Where the
    /// run is over before the limit, the logs of the links and wires that leave the node are closed.
    pub(crate) fn turn<R: Wait, G: Gate>(&mut self, rt: &R, gate: &G) -> bool
        requires ready { MayGoOn self.old.worker self.old.ended }
        ensures ready { MayGoOn self.new.worker self.new.ended }
        ensures goes_on { result ≡ is_going self.new.ended }
        ensures stays { (cells : CellsRec) (limit : Slot) (n : Position) → IsHere cells limit n self.old → IsHere cells limit n self.new }
    {
        if self.ended.is_some() {
            return false;
        }
        let ended = match self.worker.turn(gate) {
            Turn::Ran { .. } | Turn::Blocked { .. } | Turn::Busy { .. } => return true,
            Turn::Finished => Ended::Finished,
            Turn::Stopped { link } => {
                self.worker.stop(rt, Cause::Neighbour { link });
                Ended::Stopped
            }
            Turn::Memory => {
                self.worker.stop(rt, Cause::Memory);
                Ended::Memory
            }
        };
        self.ended = Some(ended);
        false
    }

    /// Takes all turns that are left, and gives what is left of the worker.
    pub(crate) fn finish<R: Wait, G: Gate>(self, rt: &R, gate: &G) -> Left
        requires ready { MayGoOn self.worker self.ended }
        ensures left { (cells : CellsRec) (limit : Slot) (n : Position) → IsHere cells limit n self.entry → IsLeft cells limit n result }
    {
        let mut here = self;
        for _ in rt.forever() {
            if !here.turn(rt, gate) {
                return here.left();
            }
            yield_now();
        }
        unreachable!()
    }

    /// What is left of the worker, whose run is over.
    pub(crate) fn left(self) -> Left
        requires over { is_going self.ended ≡ false }
        ensures left { (cells : CellsRec) (limit : Slot) (n : Position) → IsHere cells limit n self.entry → IsLeft cells limit n result }
    {
        let Here { worker, ended } = self;
        let part = worker.parts();
        match ended {
            Some(ended) => Left { part, ended },
            None => unreachable!(),
        }
    }
}
