//! `FinishedRun`, the run of a system at its limit.
ghost use Rattle.std.specs.Prelude.{◌≡◌, ◌<◌, true, false, Some, IfOk, All, length, slice_get};
ghost use Rattle.std.specs.List.{AllZip};
ghost use Rattle.xs_base.specs.Numbers.{Position, LinkNumber};
ghost use Rattle.sys_plan.specs.Plan.{arc_count};
ghost use Rattle.serial_model.specs.Serial.{serial, history, begun_at_start};
ghost use Rattle.locality_laws.specs.Locality.{node_in, events_in};
ghost use Rattle.trace_lines.specs.Kept.{Keeps};
ghost use Rattle.trace_model.specs.Trace.{tokens_sent, credits_sent};
ghost use Rattle.core_step.specs.Core.{StandsAt};
ghost use Rattle.node_runners.specs.Runner.{RunnerRec};
ghost use Rattle.node_runners.specs.Busy.{HasSteppedBusy};
ghost use Rattle.finished_runs.specs.Limit.{Totals, HasRun, HasSent, stepped_in};

use crate::runners::Runners;
use crate::together::Together;
use core_step::Core;
use known_value::Known;
use node_runners::NodeRunner;
use run_plan::SerialMachine;
use std::alloc::{AllocError, Global};
use std::marker::Model;
use sys_plan::Plan;
use trace_lines::NodeEvents;

/// The run of a system that has come to its limit. Contracts see the plan, the limit in slots and whether each node was run apart, as a
/// `FinishedRunRec` of `Rattle.finished_runs.specs.Limit`; what the system has become is `serial` of
/// `Rattle.serial_model.specs.Serial`, whatever the way in which its nodes were run. See docs/LOOKAHEAD.md.
#[derive(Drop)]
pub struct FinishedRun {
    nodes: Nodes,
}

// The nodes at the limit, as the way left them.
#[derive(Drop)]
enum Nodes {
    Together(Together),
    Runners(Runners),
}

impl Model for FinishedRun {
    ghost use Rattle.finished_runs.specs.Limit.{FinishedRunRec};

    ghost Value = { FinishedRunRec };

    ghost use Rattle.finished_runs.specs.Run.{run_of};

    ghost view = { λ f. run_of f.nodes };
}

impl FinishedRun {
    /// The run that a serial machine made from slot 0 on. It takes no memory.
    pub fn of_serial(machine: SerialMachine) -> FinishedRun
        requires start { machine.begun ≡ begun_at_start machine.plan }
        ensures { result ≡ record { plan = machine.plan; limit = machine.now; apart = false } }
    {
        FinishedRun {
            nodes: Nodes::Together(Together::of(machine)),
        }
    }

    /// The run of a plan of which each node, by position, has run so many slots by itself, `limit`, and stepped the busy ones; `totals` are how many tokens, or levels of a
    /// wire, and how many credits were sent on each arc below the limit, by number. It takes no memory.
    pub fn of_runners(
        plan: Known<Plan>,
        limit: u32,
        runners: Vec<NodeRunner>,
        totals: Vec<(u64, u64)>,
    ) -> FinishedRun
        requires nodes { length runners.items ≡ length plan.value.nodes }
        requires at_limit { (n : Position) (runner : RunnerRec) → slice_get runners.items n ≡ Some runner → HasRun plan.value limit n runner }
        requires links { length totals.items ≡ arc_count plan.value }
        requires sent { (link : LinkNumber) (sent : Totals) → slice_get totals.items link ≡ Some sent → HasSent plan.value limit link sent }
        requires busy { All HasSteppedBusy runners.items }
        ensures { result ≡ record { plan = plan.value; limit = limit; apart = true } }
    {
        FinishedRun {
            nodes: Nodes::Runners(Runners::of(plan, limit, runners, totals)),
        }
    }

    /// How many slots were run.
    pub fn limit(&self) -> u32
        ensures value { result ≡ self.now.limit }
    {
        match &self.nodes {
            Nodes::Together(run) => run.limit(),
            Nodes::Runners(runners) => runners.limit(),
        }
    }

    /// How many slots the node at a position has stepped: those that are busy, where it was run apart, and else all.
    pub fn stepped(&self, node: u8) -> u32
        requires node { node < length self.now.plan.nodes }
        ensures value { result ≡ stepped_in self.now node }
    {
        match &self.nodes {
            Nodes::Together(run) => run.limit(),
            Nodes::Runners(runners) => runners.stepped(node),
        }
    }

    /// The core of the node at a position.
    pub fn core(&self, node: u8) -> &Core
        requires node { node < length self.now.plan.nodes }
        ensures stands { StandsAt result.now (node_in (serial self.now.plan self.now.limit) node) self.now.limit }
    {
        match &self.nodes {
            Nodes::Together(run) => run.core(node),
            Nodes::Runners(runners) => runners.core(node),
        }
    }

    /// What is kept of the events of the node at a position.
    pub fn events(&self, node: u8) -> &NodeEvents
        requires node { node < length self.now.plan.nodes }
        ensures keeps { Keeps result.now (events_in (serial self.now.plan self.now.limit) node) }
    {
        match &self.nodes {
            Nodes::Together(run) => run.events(node),
            Nodes::Runners(runners) => runners.events(node),
        }
    }

    /// How many tokens were sent on the arc with a number, and how many credits; of a wire, how many levels, and 0. Of a serial machine
    /// they are counted at each call.
    pub fn totals(&self, link: u32) -> (u64, u64)
        requires link { link < arc_count self.now.plan }
        ensures tokens { result.0 ≡ tokens_sent (history self.now.plan link 0 self.now.limit) }
        ensures credits { result.1 ≡ credits_sent (history self.now.plan link 0 self.now.limit) }
    {
        match &self.nodes {
            Nodes::Together(run) => run.totals(link),
            Nodes::Runners(runners) => runners.totals(link),
        }
    }

    /// What is kept of the events of each node, by position. Nothing else is left of the run. The error is want of memory.
    pub fn into_events(self, alloc: Global) -> Result<Vec<NodeEvents>, AllocError>
        ensures keeps { IfOk result (λ v. AllZip Keeps v.items (serial self.plan self.limit).events) }
        ensures nodes { IfOk result (λ v. length v.items ≡ length self.plan.nodes) }
    {
        match self.nodes {
            Nodes::Together(run) => run.into_events(alloc),
            Nodes::Runners(runners) => runners.into_events(alloc),
        }
    }
}
