//! `RoundRun`, a run of a system that goes round by round.
ghost use Rattle.std.specs.Prelude.{◌≡◌, ◌+◌, ◌<◌, true, false, All, IfOk, length};
ghost use Rattle.finished_runs.specs.Limit.{AreAtLimit};
ghost use Rattle.node_runners.specs.Runner.{RunnerRec};
ghost use Rattle.node_runners.specs.Busy.{HasSteppedBusy};
ghost use Rattle.round_laws.specs.Rounds.{round_clock, all_at_limit};

use crate::parts::{runners_in, totals_in_all};
use crate::table::Table;
use crate::work::work_all;
use node_runners::NodeRunner;
use round_laws::{nodes_run_to_round_clocks, rounds_by_first};
use std::alloc::{AllocError, Global};
use std::marker::Model;
use std::sync::Arc;
use std::thread::Threads;
use sys_plan::Plan;
use xs_edge::Gate;

/// A run of a system that goes round by round: in a pass all nodes at once run as far as they may by what the others had run after the pass
/// before. Contracts see the plan, how many slots the run is to have, and how many passes were made; the clock of each node is the one after
/// as many rounds, `round_clock` of `Rattle.round_laws.specs.Rounds`. See docs/LOOKAHEAD.md.
#[derive(Drop)]
pub struct RoundRun {
    plan: Arc<Plan, Global>,
    passes: u32,
    table: Table,
}

impl Model for RoundRun {
    ghost use Rattle.node_rounds.specs.Run.{RoundRunRec};

    ghost Value = { RoundRunRec };

    ghost use Rattle.node_rounds.specs.Rounds.{IsAfter};

    ghost view = { λ r. record { plan = r.plan.value; limit = r.table.limit; passes = r.passes } };

    ghost invariant = { λ r. IsAfter r.plan.value r.passes r.table };
}

impl RoundRun {
    /// All nodes of a plan before their first slot, in a run of so many slots. The error is want of memory, or that the plan has 2^63 - 1
    /// owners already.
    pub fn new(alloc: Global, plan: &Arc<Plan>, limit: u32) -> Result<RoundRun, AllocError>
        ensures new { IfOk result (λ run. run ≡ record { plan = plan.now.value; limit = limit; passes = 0 }) }
    {
        let table = Table::new(alloc, plan, limit)?;
        let plan = Arc::try_clone(plan)?;
        Ok(RoundRun {
            plan,
            passes: 0,
            table,
        })
    }

    /// Makes a pass, where not all nodes are at the limit. In it all nodes, at once, pass the gate, take the batches that lie ready for them,
    /// go over quiet slots, and run as far as they may; then all that each has sent is handed on to its receiver, who takes it in the next
    /// pass. Each node works in a thread of its own where one can be made, and else they work one after the other: it waits for nobody but
    /// them, and always returns. The error is want of memory, and leaves nothing.
    pub fn pass<R: Threads + Sync, G: Gate>(
        self,
        rt: &R,
        alloc: Global,
        gate: &G,
    ) -> Result<RoundRun, AllocError>
        requires below { all_at_limit self.plan self.limit self.passes ≡ false }
        ensures passed { IfOk result (λ run. run ≡ record self { passes = self.passes + 1 }) }
    {
        nodes_run_to_round_clocks();
        rounds_by_first();
        let RoundRun {
            plan,
            passes,
            mut table,
        } = self;
        work_all(rt, &mut table.seats, gate)?;
        table.hand_all_on(&plan)?;
        Ok(RoundRun {
            plan,
            passes: passes + 1,
            table,
        })
    }

    /// How many passes were made. It takes no memory.
    pub fn passes(&self) -> u32
        ensures value { result ≡ self.now.passes }
    {
        self.passes
    }

    /// The clock of the node at a position: how many slots it has run. It takes no memory.
    pub fn clock(&self, node: u8) -> u32
        requires node { node < length self.now.plan.nodes }
        ensures value { result ≡ round_clock self.now.plan self.now.limit node self.now.passes }
    {
        self.table.seats[node as usize].runner.clock()
    }

    /// Whether all nodes are at the limit. It takes no memory.
    pub fn is_at_limit(&self) -> bool
        ensures value { result ≡ all_at_limit self.now.plan self.now.limit self.now.passes }
    {
        self.table.is_at_limit()
    }

    /// The nodes by position, and by arc how many tokens and how many credits it carried, where all nodes are at the limit. The error is want
    /// of memory, and leaves nothing.
    pub fn into_parts(self, alloc: Global) -> Result<(Vec<NodeRunner>, Vec<(u64, u64)>), AllocError>
        requires at_limit { all_at_limit self.plan self.limit self.passes ≡ true }
        ensures at_limit { IfOk result (λ parts. AreAtLimit self.plan self.limit parts.0.items parts.1.items) }
        ensures limits { IfOk result (λ parts. All (λ (r : RunnerRec). r.horizon.limit ≡ self.limit) parts.0.items) }
        ensures busy { IfOk result (λ parts. All HasSteppedBusy parts.0.items) }
    {
        rounds_by_first();
        let RoundRun { table, .. } = self;
        let totals = totals_in_all(alloc, &table.lanes)?;
        let runners = runners_in(alloc, table.seats)?;
        Ok((runners, totals))
    }
}
