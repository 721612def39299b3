//! `Runners`, the nodes of a plan that have run by themselves to the limit.
ghost use Rattle.std.specs.Prelude.{◌≡◌, ◌<◌, Some, IfOk, All, length, slice_get};
ghost use Rattle.std.specs.List.{AllZip};
ghost use Rattle.xs_base.specs.Numbers.{Position, LinkNumber};
ghost use Rattle.sys_plan.specs.Plan.{arc_count};
ghost use Rattle.serial_model.specs.Serial.{serial, history};
ghost use Rattle.locality_laws.specs.Locality.{node_in, events_in};
ghost use Rattle.trace_lines.specs.Kept.{Keeps};
ghost use Rattle.trace_model.specs.Trace.{tokens_sent, credits_sent};
ghost use Rattle.core_step.specs.Core.{StandsAt};
ghost use Rattle.busy_slots.specs.Busy.{busy_count};
ghost use Rattle.node_runners.specs.Runner.{RunnerRec};
ghost use Rattle.node_runners.specs.Busy.{HasSteppedBusy};
ghost use Rattle.finished_runs.specs.Limit.{Totals, HasRun, HasSent};

use core_step::Core;
use known_value::Known;
use node_runners::NodeRunner;
use std::alloc::{AllocError, Global};
use std::marker::Model;
use sys_plan::Plan;
use trace_lines::NodeEvents;

/// All nodes of a plan, by position, at the limit of a run in slots, and how many tokens and credits were sent on each arc, by
/// number. Contracts see an `AtLimitRec` of `Rattle.finished_runs.specs.Limit`.
#[derive(Drop)]
pub(crate) struct Runners {
    plan: Known<Plan>,
    limit: u32,
    runners: Vec<NodeRunner>,
    totals: Vec<(u64, u64)>,
}

impl Model for Runners {
    ghost use Rattle.finished_runs.specs.Limit.{AtLimitRec, WereRunApart};

    ghost Value = { AtLimitRec };

    ghost view = { λ r. record { plan = r.plan.value; limit = r.limit } };

    ghost invariant = { λ r. WereRunApart r.plan.value r.limit r.runners.items r.totals.items };
}

impl Runners {
    /// The nodes of a plan, each of which has run so many slots and stepped the busy ones, and what was sent on its arcs. It takes no memory.
    pub(crate) fn of(
        plan: Known<Plan>,
        limit: u32,
        runners: Vec<NodeRunner>,
        totals: Vec<(u64, u64)>,
    ) -> Runners
        requires nodes { length runners.items ≡ length plan.value.nodes }
        requires at_limit { (n : Position) (runner : RunnerRec) → slice_get runners.items n ≡ Some runner → HasRun plan.value limit n runner }
        requires links { length totals.items ≡ arc_count plan.value }
        requires sent { (link : LinkNumber) (sent : Totals) → slice_get totals.items link ≡ Some sent → HasSent plan.value limit link sent }
        requires busy { All HasSteppedBusy runners.items }
        ensures { result ≡ record { plan = plan.value; limit = limit } }
    {
        Runners {
            plan,
            limit,
            runners,
            totals,
        }
    }

    /// How many slots were run.
    pub(crate) fn limit(&self) -> u32
        ensures value { result ≡ self.now.limit }
    {
        self.limit
    }

    // The node at a position.
    fn runner(&self, node: u8) -> &NodeRunner
        requires node { node < length self.now.plan.nodes }
        ensures at_limit { HasRun self.now.plan self.now.limit node result.now }
        ensures busy { HasSteppedBusy result.now }
    {
        &self.runners[node as usize]
    }

    /// How many slots the node at a position has stepped.
    #[tactic(auto, using(crate::proofs::Nodes::stepped_there))]
    pub(crate) fn stepped(&self, node: u8) -> u32
        requires node { node < length self.now.plan.nodes }
        ensures busy { result ≡ busy_count self.now.plan node self.now.limit }
    {
        self.runner(node).stepped()
    }

    /// The core of the node at a position.
    #[tactic(auto, using(crate::proofs::Nodes::stands_there))]
    pub(crate) fn core(&self, node: u8) -> &Core
        requires node { node < length self.now.plan.nodes }
        ensures stands { StandsAt result.now (node_in (serial self.now.plan self.now.limit) node) self.now.limit }
    {
        self.runner(node).core()
    }

    /// What is kept of the events of the node at a position.
    #[tactic(auto, using(crate::proofs::Nodes::keeps_there))]
    pub(crate) fn events(&self, node: u8) -> &NodeEvents
        requires node { node < length self.now.plan.nodes }
        ensures keeps { Keeps result.now (events_in (serial self.now.plan self.now.limit) node) }
    {
        self.runner(node).events()
    }

    /// How many tokens were sent on the arc with a number, and how many credits.
    pub(crate) fn totals(&self, link: u32) -> (u64, u64)
        requires link { link < arc_count self.now.plan }
        ensures tokens { result.0 ≡ tokens_sent (history self.now.plan link 0 self.now.limit) }
        ensures credits { result.1 ≡ credits_sent (history self.now.plan link 0 self.now.limit) }
    {
        let sent = &self.totals[link as usize];
        *sent
    }

    /// What is kept of the events of each node, by position. Nothing else is left. The error is want of memory.
    pub(crate) fn into_events(self, alloc: Global) -> Result<Vec<NodeEvents>, AllocError>
        ensures keeps { IfOk result (λ v. AllZip Keeps v.items (serial self.plan self.limit).events) }
        ensures nodes { IfOk result (λ v. length v.items ≡ length self.plan.nodes) }
    {
        let mut all = Vec::new(alloc);
        for runner in self.runners {
            all.push(runner.into_events())?;
        }
        Ok(all)
    }
}
