//! `Worker`, a node that runs ahead of the others on a thread of its own, and `Part`, what is left of it.
ghost use Rattle.std.specs.Prelude.{◌≡◌, ◌≢◌, [], All};
ghost use Rattle.std.specs.List.{AllZip};
ghost use Rattle.plan_cells.specs.Ends.{AreNewEnds};
ghost use Rattle.node_runners.specs.Runner.{new_runner};

use crate::ended::Ended;
use crate::exchange::take_turn;
use crate::lanes::Lanes;
use crate::least::least_untold;
use crate::tell::close_all;
use crate::turn::Turn;
use known_value::Known;
use link_logs::Cause;
use node_runners::NodeRunner;
use plan_cells::{Ends, PlanCells};
use std::marker::Model;
use std::sync::Wait;
use std::thread::yield_now;
use xs_edge::Gate;

/// A node that runs ahead of the others, and the ends by which it reads and writes the cells of its links and wires. Contracts see a `WorkerRec` of
/// `Rattle.core_workers.specs.Worker`. See docs/LOOKAHEAD.md.
#[derive(Drop)]
pub struct Worker<'a> {
    lanes: &'a Lanes,
    runner: NodeRunner,
    ends: Ends,
    // How often it looks for news that it waits for without letting go of its processor.
    eager: u32,
}

impl<'a> Model for Worker<'a> {
    ghost use Rattle.core_workers.specs.Worker.{WorkerRec};

    ghost Value = { WorkerRec };

    ghost use Rattle.core_workers.specs.Worker.{IsWorker};

    ghost view = { λ w. record { cells = w.lanes.now; runner = w.runner; ends = w.ends } };

    ghost invariant = { λ w. IsWorker (record { cells = w.lanes.now; runner = w.runner; ends = w.ends }) };
}

/// What is left of a worker: its node, and the ends of its links and wires. `Worker::parts` alone makes one, and nothing changes it. Contracts see
/// it as they saw the worker.
#[derive(Drop)]
pub struct Part {
    cells: Known<PlanCells>,
    runner: NodeRunner,
    pub(crate) ends: Ends,
}

impl Model for Part {
    ghost use Rattle.core_workers.specs.Worker.{WorkerRec};

    ghost Value = { WorkerRec };

    ghost use Rattle.core_workers.specs.Worker.{IsWorker};

    ghost view = { λ p. record { cells = p.cells.value; runner = p.runner; ends = p.ends } };

    ghost invariant = { λ p. IsWorker (record { cells = p.cells.value; runner = p.runner; ends = p.ends }) };
}

impl<'a> Worker<'a> {
    ghost use Rattle.core_workers.specs.Worker.{IsWorker, IsOpen, Stays, Exchanged, Answers, Closes, KeepsAllElse, untold_ends};
    ghost use Rattle.core_workers.specs.Run.{Keeps, EndsWith};
    ghost use Rattle.core_workers.specs.Turns.{Shuts, RunsBy};
    ghost use Rattle.link_logs.specs.declared.answers.Cause.TheVariants as cause;
    ghost use Rattle.core_workers.specs.declared.turn.Turn.TheVariants as turn;
    ghost use Rattle.core_workers.specs.declared.ended.Ended.TheVariants as ended;

    /// A worker of the node at a position of the plan of these lanes, with the ends that are the node's. Nothing was run, read or
    /// published yet. It takes no memory.
    pub fn new(runner: NodeRunner, lanes: &'a Lanes, ends: Ends) -> Worker<'a>
        requires new_runner { runner ≡ new_runner lanes.now.plan runner.horizon.limit runner.node }
        requires new_ends { AreNewEnds lanes.now runner.node ends }
        ensures made { result ≡ record { cells = lanes.now; runner = runner; ends = ends } }
        ensures keeps { IsWorker result }
    {
        // What every runner keeps is told where its node is read.
        let _node = runner.node();
        Worker {
            lanes,
            runner,
            ends,
            eager: 0,
        }
    }

    /// From now on it looks so often for news that it waits for without letting go of its processor, before it does as if it did not: 0 times
    /// at first. It is worth it where each worker has a processor of its own.
    pub fn look_eagerly(&mut self, looks: u32)
        ensures same { self.new ≡ self.old }
    {
        self.eager = looks;
    }

    /// Passes the gate; then looks once at the log of each link or wire that comes to the node, runs the node as far as it may, and publishes once
    /// each link or wire that leaves it. It waits for nobody: where a cell is in use by its other end, what was to be done there is left for a later
    /// turn. No log of a link or wire that leaves the node may be closed, and none is closed by it.
    pub fn turn<G: Gate>(&mut self, gate: &G) -> Turn
        requires open { All IsOpen self.old.ends.outgoing.items }
        ensures keeps { IsWorker self.new }
        ensures stays { Stays self.old self.new }
        ensures open { All IsOpen self.new.ends.outgoing.items }
        ensures exchanged { result ≢ turn.Memory → Exchanged self.old self.new }
        ensures answer { Answers self.old result self.new }
    {
        gate.pass(u32::from(self.runner.node()));
        let lanes = self.lanes;
        take_turn(&lanes.cells, &mut self.runner, &mut self.ends)
    }

    /// Takes turns until the node has run all slots, or has run none in a turn and the log of a link or wire that comes to it was found closed, or
    /// memory is wanting: in the last two cases it closes the logs of the links and wires that leave the node. While the node is blocked it
    /// waits for news of the link or wire that blocks it, once all that it has sent is published. No log of a link or wire that leaves the node may be closed.
    pub fn run<R: Wait, G: Gate>(&mut self, rt: &R, gate: &G) -> Ended
        requires open { All IsOpen self.old.ends.outgoing.items }
        ensures is_worker { IsWorker self.new }
        ensures keeps { Keeps self.old self.new }
        ensures ended { EndsWith result self.new }
        ensures turns { RunsBy self.old result self.new }
    {
        for _ in rt.forever() {
            match self.turn(gate) {
                Turn::Ran { .. } => {}
                Turn::Blocked { end, .. } => self.wait(rt, end),
                Turn::Busy { .. } => yield_now(),
                Turn::Finished => return Ended::Finished,
                Turn::Stopped { link } => {
                    self.stop(rt, Cause::Neighbour { link });
                    return Ended::Stopped;
                }
                Turn::Memory => return self.give_up(rt),
            }
        }
        unreachable!()
    }

    // Lets others go on before the next turn: where all that the node has sent is published, until there are news of the arc that comes to
    // an end. What is not published may be what these news wait for.
    fn wait<R: Wait>(&self, rt: &R, end: u8) {
        match least_untold(&self.ends.outgoing, self.runner.clock()) {
            None => self.await_news(rt, end),
            Some(_) => yield_now(),
        }
    }

    // Waits for news of the arc that comes to an end.
    fn await_news<R: Wait>(&self, rt: &R, end: u8)
        requires told { untold_ends self.now.runner.clock self.now.ends.outgoing.items ≡ [] }
    {
        let lanes = self.lanes;
        for reader in &self.ends.incoming {
            if reader.end == end {
                let cell = lanes.cells.cell(reader.link);
                cell.await_news(rt, &reader.r, self.eager);
            }
        }
    }

    // Closes the logs that leave the node, which are open, for want of memory.
    fn give_up<R: Wait>(&mut self, rt: &R) -> Ended
        requires open { All IsOpen self.old.ends.outgoing.items }
        ensures is_worker { IsWorker self.new }
        ensures keeps { Keeps self.old self.new }
        ensures ended { EndsWith result self.new }
        ensures shuts { Shuts cause.Memory self.old self.new }
        ensures memory { result ≡ ended.Memory }
    {
        self.stop(rt, Cause::Memory);
        Ended::Memory
    }

    /// Closes the logs of the links and wires that leave the node with a cause; those that were closed keep theirs. It may wait for those that look
    /// at the same logs, and takes no memory.
    pub fn stop<R: Wait>(&mut self, rt: &R, cause: Cause)
        ensures keeps { IsWorker self.new }
        ensures closed { AllZip (Closes cause) self.old.ends.outgoing.items self.new.ends.outgoing.items }
        ensures rest { KeepsAllElse self.old self.new }
    {
        let lanes = self.lanes;
        close_all(rt, &lanes.cells, &mut self.ends, cause);
    }

    /// The node and the ends, which name no lanes any more. It takes no memory.
    pub fn parts(self) -> Part
        ensures same { result ≡ self.entry }
        ensures keeps { IsWorker result }
    {
        let Worker {
            lanes,
            runner,
            ends,
            ..
        } = self;
        Part {
            cells: Known::of(&lanes.cells),
            runner,
            ends,
        }
    }
}

impl Part {
    ghost use Rattle.core_workers.specs.Worker.{IsWorker};

    /// The node and the ends of its links and wires. It takes no memory.
    pub(crate) fn apart(self) -> (NodeRunner, Ends)
        ensures runner { result.0 ≡ self.runner }
        ensures ends { result.1 ≡ self.ends }
        ensures keeps { IsWorker self }
    {
        let Part { runner, ends, .. } = self;
        (runner, ends)
    }
}
