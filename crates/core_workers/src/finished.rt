//! `Finished`, the run of a system at its limit.
ghost use Rattle.std.specs.Prelude.{◌≡◌, ◌≢◌, ◌<◌, true, Some, IfOk, All, length, slice_get};
ghost use Rattle.std.specs.List.{AllZip};
ghost use Rattle.xs_base.specs.Numbers.{Position, LinkNumber};
ghost use Rattle.sys_plan.specs.Plan.{arc_count};
ghost use Rattle.serial_model.specs.Serial.{serial, history, begun_at_start};
ghost use Rattle.locality_laws.specs.Locality.{node_in, events_in};
ghost use Rattle.trace_lines.specs.Kept.{Keeps};
ghost use Rattle.trace_model.specs.Trace.{tokens_sent, credits_sent};
ghost use Rattle.core_step.specs.Core.{StandsAt};
ghost use Rattle.busy_slots.specs.Busy.{busy_count};
ghost use Rattle.node_runners.specs.Runner.{RunnerRec};
ghost use Rattle.node_runners.specs.Busy.{HasSteppedBusy};
ghost use Rattle.finished_runs.specs.Limit.{Totals, HasRun, HasSent};
ghost use Rattle.core_workers.specs.Finished.{is_apart};

use crate::way::Way;
use core_step::Core;
use finished_runs::FinishedRun;
use known_value::Known;
use node_runners::NodeRunner;
use run_plan::SerialMachine;
use std::alloc::{AllocError, Global};
use std::marker::Model;
use sys_plan::Plan;
use trace_lines::NodeEvents;

/// The run of a system that has come to its limit, and the way in which the nodes were run. Contracts see the plan, the limit in slots,
/// the way and how many rounds were made; what the system has become is `serial` of `Rattle.serial_model.specs.Serial`, whatever the way. A
/// serial machine makes one of the way `Serial`, `of_rounds` one of the way `Rounds`, and `Lanes::finish` alone one of the way `Workers`. See
/// docs/LOOKAHEAD.md.
#[derive(Drop)]
pub struct Finished {
    run: FinishedRun,
    way: Way,
    rounds: u32,
}

impl Model for Finished {
    ghost use Rattle.core_workers.specs.Finished.{FinishedRec};

    ghost Value = { FinishedRec };

    ghost use Rattle.std.specs.Prelude.{◌≡◌};
    ghost use Rattle.core_workers.specs.Finished.{is_apart, HasRounds};

    ghost view = { λ f. record { plan = f.run.plan; limit = f.run.limit; way = f.way; rounds = f.rounds } };

    ghost invariant = { λ f. (f.run.apart ≡ is_apart f.way) × HasRounds f.way f.rounds };
}

impl Finished {
    /// The run that a serial machine made from slot 0 on. It takes no memory.
    pub fn of_serial(machine: SerialMachine) -> Finished
        requires start { machine.begun ≡ begun_at_start machine.plan }
        ensures { result ≡ record { plan = machine.plan; limit = machine.now; way = Way.Serial; rounds = 0 } }
    {
        Finished {
            run: FinishedRun::of_serial(machine),
            way: Way::Serial,
            rounds: 0,
        }
    }

    /// The run that workers made, one for each node. It takes no memory.
    pub(crate) fn of_workers(run: FinishedRun) -> Finished
        requires apart { run.apart ≡ true }
        ensures { result ≡ record { plan = run.plan; limit = run.limit; way = Way.Workers; rounds = 0 } }
    {
        Finished {
            run,
            way: Way::Workers,
            rounds: 0,
        }
    }

    /// The run of a plan that was made in so many rounds: each node, by position, has run so many slots, `limit`, and stepped the busy ones;
    /// `totals` are how many tokens, or levels of a wire, and how many credits were sent on each arc below the limit, by number. It takes no
    /// memory.
    pub fn of_rounds(
        plan: Known<Plan>,
        limit: u32,
        runners: Vec<NodeRunner>,
        totals: Vec<(u64, u64)>,
        rounds: u32,
    ) -> Finished
        requires nodes { length runners.items ≡ length plan.value.nodes }
        requires at_limit { (n : Position) (runner : RunnerRec) → slice_get runners.items n ≡ Some runner → HasRun plan.value limit n runner }
        requires links { length totals.items ≡ arc_count plan.value }
        requires sent { (link : LinkNumber) (sent : Totals) → slice_get totals.items link ≡ Some sent → HasSent plan.value limit link sent }
        requires busy { All HasSteppedBusy runners.items }
        ensures { result ≡ record { plan = plan.value; limit = limit; way = Way.Rounds; rounds = rounds } }
    {
        Finished {
            run: FinishedRun::of_runners(plan, limit, runners, totals),
            way: Way::Rounds,
            rounds,
        }
    }

    /// How the nodes were run.
    pub fn way(&self) -> Way
        ensures value { result ≡ self.now.way }
    {
        self.way
    }

    /// The run, whatever the way.
    pub fn run(&self) -> &FinishedRun
        ensures value { result.now ≡ record { plan = self.now.plan; limit = self.now.limit; apart = is_apart self.now.way } }
    {
        &self.run
    }

    /// The run, whatever the way. It takes no memory.
    pub fn into_run(self) -> FinishedRun
        ensures value { result ≡ record { plan = self.plan; limit = self.limit; apart = is_apart self.way } }
    {
        self.run
    }

    /// How many slots were run.
    pub fn limit(&self) -> u32
        ensures value { result ≡ self.now.limit }
    {
        self.run.limit()
    }

    /// How many slots of the node at a position count as stepped: by workers, and round by round, those that are busy, which were run one by
    /// one; of a serial machine all of them, though it goes over slots in which nothing happens at any node at once.
    pub fn stepped(&self, node: u8) -> u32
        requires node { node < length self.now.plan.nodes }
        ensures workers { self.now.way ≡ Way.Workers → result ≡ busy_count self.now.plan node self.now.limit }
        ensures rounds { self.now.way ≡ Way.Rounds → result ≡ busy_count self.now.plan node self.now.limit }
        ensures serial { self.now.way ≡ Way.Serial → result ≡ self.now.limit }
    {
        self.run.stepped(node)
    }

    /// How many rounds were made: none, unless the nodes were run round by round.
    pub fn rounds(&self) -> u32
        ensures value { result ≡ self.now.rounds }
        ensures none { self.now.way ≢ Way.Rounds → result ≡ 0 }
    {
        self.rounds
    }

    /// The core of the node at a position.
    pub fn core(&self, node: u8) -> &Core
        requires node { node < length self.now.plan.nodes }
        ensures stands { StandsAt result.now (node_in (serial self.now.plan self.now.limit) node) self.now.limit }
    {
        self.run.core(node)
    }

    /// What is kept of the events of the node at a position.
    pub fn events(&self, node: u8) -> &NodeEvents
        requires node { node < length self.now.plan.nodes }
        ensures keeps { Keeps result.now (events_in (serial self.now.plan self.now.limit) node) }
    {
        self.run.events(node)
    }

    /// How many tokens were sent on the arc with a number, and how many credits; of a wire, how many levels, and 0.
    pub fn totals(&self, link: u32) -> (u64, u64)
        requires link { link < arc_count self.now.plan }
        ensures tokens { result.0 ≡ tokens_sent (history self.now.plan link 0 self.now.limit) }
        ensures credits { result.1 ≡ credits_sent (history self.now.plan link 0 self.now.limit) }
    {
        self.run.totals(link)
    }

    /// What is kept of the events of each node, by position. Nothing else is left of the run. The error is want of memory.
    pub fn into_events(self, alloc: Global) -> Result<Vec<NodeEvents>, AllocError>
        ensures keeps { IfOk result (λ v. AllZip Keeps v.items (serial self.plan self.limit).events) }
        ensures nodes { IfOk result (λ v. length v.items ≡ length self.plan.nodes) }
    {
        self.run.into_events(alloc)
    }
}
