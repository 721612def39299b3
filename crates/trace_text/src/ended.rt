//! `EndedRun`, a run that has come to its limit, as far as its trace tells of it.
ghost use Rattle.std.specs.Prelude.{◌≡◌, ◌<◌, IfOk, length, slice_index_or};
ghost use Rattle.sys_plan.specs.Plan.{arc_count};
ghost use Rattle.core_step.specs.Core.{StandsAt};
ghost use Rattle.trace_merge.specs.Nodes.{events_of};
ghost use Rattle.trace_model.specs.Trace.{node_at, sent_on};

use core_step::Core;
use finished_runs::FinishedRun;
use locality_laws::links_tell_ahead;
use std::alloc::{AllocError, Global};
use trace_lines::NodeEvents;

/// A run of a plan that has come to its limit, whatever it began with.
pub trait EndedRun: Drop {
    ghost use Rattle.std.specs.Prelude.{ℕ};
    ghost use Rattle.sys_plan.specs.Plan.{PlanRec};
    ghost use Rattle.trace_model.specs.Trace.{EndRec};

    /// The plan, after how many slots the run ended, and what is told of it there.
    ghost plan: { Self → PlanRec };

    ghost slots: { Self → ℕ };

    ghost end: { Self → EndRec };

    /// After how many slots it ended.
    fn limit(&self) -> u32
        ensures value { result ≡ slots self.now };

    /// The core of the node at a position.
    fn core(&self, node: u8) -> &Core
        requires node { node < length (plan self.now).nodes }
        ensures stands { StandsAt result.now (node_at (end self.now) node) (slots self.now) };

    /// How many events of the node at a position are not kept.
    fn more(&self, node: u8) -> u64
        requires node { node < length (plan self.now).nodes }
        ensures value { result ≡ slice_index_or (end self.now).more node 0 };

    /// How many tokens were sent on the arc with a number, and how many credits; of a wire, how many levels, and 0.
    fn totals(&self, link: u32) -> (u64, u64)
        requires link { link < arc_count (plan self.now) }
        ensures value { result ≡ sent_on (end self.now) link };

    /// What is kept of the events of each node, by position. Nothing else is left of the run. The error is want of memory.
    fn into_events(self, alloc: Global) -> Result<Vec<NodeEvents>, AllocError>
        ensures kept { IfOk result (λ v. events_of v.items ≡ (end self).kept) }
        ensures nodes { IfOk result (λ v. length v.items ≡ length (plan self).nodes) };
}

impl EndedRun for FinishedRun {
    ghost use Rattle.serial_model.specs.Serial.{serial};
    ghost use Rattle.trace_model.specs.Trace.{end_of};

    ghost plan = { λ run. run.plan };

    ghost slots = { λ run. run.limit };

    ghost end = { λ run. end_of (serial run.plan run.limit) };

    fn limit(&self) -> u32 {
        self.limit()
    }

    fn core(&self, node: u8) -> &Core {
        self.core(node)
    }

    fn more(&self, node: u8) -> u64 {
        self.events(node).more()
    }

    fn totals(&self, link: u32) -> (u64, u64) {
        links_tell_ahead();
        self.totals(link)
    }

    fn into_events(self, alloc: Global) -> Result<Vec<NodeEvents>, AllocError> {
        self.into_events(alloc)
    }
}
