//! `RunOn`, a run that went on from a snapshot, at its limit.
ghost use Rattle.std.specs.Prelude.{◌≡◌, ◌<◌, ◌≤◌, IfOk, length, slice_index_or};
ghost use Rattle.sys_plan.specs.Plan.{arc_count};
ghost use Rattle.core_step.specs.Core.{StandsAt};
ghost use Rattle.trace_merge.specs.Nodes.{events_of};
ghost use Rattle.trace_model.specs.Trace.{node_at, sent_on};
ghost use Rattle.snap_codec.specs.Snaps.{IsSnap};
ghost use Rattle.snap_model.specs.Rest.{kept_after};
ghost use Rattle.snap_run.specs.RunsOn.{end_of_run};

use crate::counts::count_from;
use crate::room::{cut, past_room, room_of};
use core_step::Core;
use run_plan::SerialMachine;
use snap_codec::{Snap, snaps_are_lawful};
use snap_parts::SnapNode;
use std::alloc::{AllocError, Global};
use std::marker::Model;
use sys_plan::Plan;
use trace_lines::NodeEvents;

/// A run that went on from a snapshot and has come to its limit. Contracts see a `RunOnRec` of `Rattle.snap_run.specs.RunsOn`.
#[derive(Drop)]
pub(crate) struct RunOn<'a> {
    machine: SerialMachine,
    // Of it what it counts of events, and of what was sent, before its slot.
    snap: &'a Snap,
}

impl<'a> Model for RunOn<'a> {
    ghost use Rattle.snap_run.specs.RunsOn.{RunOnRec, WentOn};

    ghost Value = { RunOnRec };

    ghost view = { λ run. record { plan = run.machine.plan; body = run.snap.now.body; slots = run.machine.now } };

    ghost invariant = { λ run. WentOn run.machine run.snap.now };
}

impl<'a> RunOn<'a> {
    /// The run of a plan that goes on from a snapshot up to so many slots. The error is want of memory.
    pub(crate) fn to(
        alloc: Global,
        plan: &Plan,
        snap: &'a Snap,
        limit: u32,
    ) -> Result<RunOn<'a>, AllocError>
        requires is { IsSnap plan.now snap.now }
        requires limit { snap.now.body.slot ≤ limit }
        ensures value { IfOk result (λ run. run ≡ record { plan = plan.now; body = snap.now.body; slots = limit }) }
    {
        snaps_are_lawful();
        let mut machine = SerialMachine::resumed(alloc, plan, snap.system())?;
        machine.run(limit)?;
        Ok(RunOn { machine, snap })
    }

    /// After how many slots it ended.
    pub(crate) fn slots(&self) -> u32
        ensures value { result ≡ self.now.slots }
    {
        self.machine.now()
    }

    /// The core of the node at a position.
    pub(crate) fn node(&self, node: u8) -> &Core
        requires node { node < length self.now.plan.nodes }
        ensures stands { StandsAt result.now (node_at (end_of_run self.now) node) self.now.slots }
    {
        self.machine.core(node)
    }

    /// How many events of the node at a position are not kept.
    pub(crate) fn left_out(&self, node: u8) -> u64
        requires node { node < length self.now.plan.nodes }
        ensures value { result ≡ slice_index_or (end_of_run self.now).more node 0 }
    {
        let nodes = self.snap.nodes();
        let before = &nodes[node as usize];
        before.more + past_room(self.machine.events(node), room_of(before))
    }

    /// How many tokens were sent on the arc with a number, and how many credits; of a wire, how many levels, and 0.
    pub(crate) fn sent(&self, link: u32) -> (u64, u64)
        requires link { link < arc_count self.now.plan }
        ensures value { result ≡ sent_on (end_of_run self.now) link }
    {
        let logs = self.snap.logs();
        let before = &logs[link as usize];
        let sent = count_from(self.machine.history(link), self.snap.slot());
        (before.totals.0 + sent.0, before.totals.1 + sent.1)
    }

    /// What is kept of the events of each node, by position. Nothing else is left of the run. The error is want of memory.
    pub(crate) fn kept(self, alloc: Global) -> Result<Vec<NodeEvents>, AllocError>
        ensures kept { IfOk result (λ v. events_of v.items ≡ (end_of_run self.entry).kept) }
        ensures nodes { IfOk result (λ v. length v.items ≡ length self.entry.plan.nodes) }
    {
        let events = self.machine.into_events(alloc)?;
        cut_all(alloc, self.snap.nodes(), events)
    }
}

// The events of each node as far as there is room. Each node's are let go before the next one's are copied. The error is want of memory.
fn cut_all(
    alloc: Global,
    nodes: &[SnapNode],
    all: Vec<NodeEvents>,
) -> Result<Vec<NodeEvents>, AllocError>
    requires nodes { length nodes.now ≡ length all.items }
    ensures cut { IfOk result (λ v. events_of v.items ≡ kept_after nodes.now (events_of all.items)) }
    ensures count { IfOk result (λ v. length v.items ≡ length all.items) }
{
    let mut kept = Vec::new(alloc);
    for events in all {
        let room = room_of(&nodes[kept.len()]);
        kept.push(cut(alloc, events, room)?)?;
    }
    Ok(kept)
}
