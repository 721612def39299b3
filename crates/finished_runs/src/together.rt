//! `Together`, the nodes of a plan that a serial machine has run from slot 0 on.
ghost use Rattle.std.specs.Prelude.{◌≡◌, ◌<◌, IfOk, length};
ghost use Rattle.std.specs.List.{AllZip};
ghost use Rattle.sys_plan.specs.Plan.{arc_count};
ghost use Rattle.serial_model.specs.Serial.{serial, history, begun_at_start};
ghost use Rattle.locality_laws.specs.Locality.{node_in, events_in};
ghost use Rattle.trace_lines.specs.Kept.{Keeps};
ghost use Rattle.trace_model.specs.Trace.{tokens_sent, credits_sent};
ghost use Rattle.core_step.specs.Core.{StandsAt};

use crate::sent::count_sent;
use core_step::Core;
use locality_laws::links_tell_ahead;
use run_plan::{SerialMachine, machines_are_serial};
use std::alloc::{AllocError, Global};
use std::marker::Model;
use trace_lines::NodeEvents;
use xs_base::Entry;

/// All nodes of a plan, stepped together from slot 0 to the limit of a run. Contracts see an `AtLimitRec` of
/// `Rattle.finished_runs.specs.Limit`.
#[derive(Drop)]
pub(crate) struct Together {
    machine: SerialMachine,
}

impl Model for Together {
    ghost use Rattle.finished_runs.specs.Limit.{AtLimitRec};

    ghost Value = { AtLimitRec };

    ghost use Rattle.std.specs.Prelude.{◌≡◌};
    ghost use Rattle.serial_model.specs.Serial.{begun_at_start};

    ghost view = { λ t. record { plan = t.machine.plan; limit = t.machine.now } };

    ghost invariant = { λ t. t.machine.begun ≡ begun_at_start t.machine.plan };
}

impl Together {
    /// The run that a serial machine made from slot 0 on. It takes no memory.
    pub(crate) fn of(machine: SerialMachine) -> Together
        requires start { machine.begun ≡ begun_at_start machine.plan }
        ensures { result ≡ record { plan = machine.plan; limit = machine.now } }
    {
        Together { machine }
    }

    /// How many slots were run.
    pub(crate) fn limit(&self) -> u32
        ensures value { result ≡ self.now.limit }
    {
        self.machine.now()
    }

    /// The core of the node at a position.
    pub(crate) fn core(&self, node: u8) -> &Core
        requires node { node < length self.now.plan.nodes }
        ensures stands { StandsAt result.now (node_in (serial self.now.plan self.now.limit) node) self.now.limit }
    {
        machines_are_serial();
        self.machine.core(node)
    }

    /// What is kept of the events of the node at a position.
    pub(crate) fn events(&self, node: u8) -> &NodeEvents
        requires node { node < length self.now.plan.nodes }
        ensures keeps { Keeps result.now (events_in (serial self.now.plan self.now.limit) node) }
    {
        machines_are_serial();
        self.machine.events(node)
    }

    /// How many tokens were sent on the arc with a number, and how many credits. They are counted at each call.
    pub(crate) fn totals(&self, link: u32) -> (u64, u64)
        requires link { link < arc_count self.now.plan }
        ensures tokens { result.0 ≡ tokens_sent (history self.now.plan link 0 self.now.limit) }
        ensures credits { result.1 ≡ credits_sent (history self.now.plan link 0 self.now.limit) }
    {
        count_sent(self.history(link))
    }

    // What the arc with a number has carried below the limit.
    fn history(&self, link: u32) -> &[Entry]
        requires link { link < arc_count self.now.plan }
        ensures value { result.now ≡ history self.now.plan link 0 self.now.limit }
    {
        links_tell_ahead();
        machines_are_serial();
        self.machine.history(link)
    }

    /// What is kept of the events of each node, by position. Nothing else is left. The error is want of memory.
    pub(crate) fn into_events(self, alloc: Global) -> Result<Vec<NodeEvents>, AllocError>
        ensures keeps { IfOk result (λ v. AllZip Keeps v.items (serial self.plan self.limit).events) }
        ensures nodes { IfOk result (λ v. length v.items ≡ length self.plan.nodes) }
    {
        machines_are_serial();
        self.machine.into_events(alloc)
    }
}
