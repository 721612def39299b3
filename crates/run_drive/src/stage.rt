//! `Stage`, the nodes and the arcs of a plan whose schedule is played.
ghost use Rattle.std.specs.Prelude.{◌≡◌, ◌≤◌, ◌+◌, if◌then◌else◌, Some, None, IsSome, IfOk, OnOk, [], length, slice_set, slice_index_or};
ghost use Rattle.xs_base.specs.Numbers.{LinkNumber};
ghost use Rattle.sys_plan.specs.declared.Step.TheVariants as step;
ghost use Rattle.sys_plan.specs.Plan.{incoming, NamesWhatIsThere};
ghost use Rattle.serial_model.specs.Serial.{history};
ghost use Rattle.ahead_limits.specs.Horizon.{may_run, seen_at, seen_to};
ghost use Rattle.ahead_limits.specs.Schedule.{schedule_at_start, clock_after};
ghost use Rattle.run_drive.specs.Played.{line_of};
ghost use Rattle.run_drive.specs.Stages.{IsAt, Plays, schedule_of};

use crate::played::PlayLine;
use core_workers::{NodeRunner, Ran};
use known_value::Known;
use link_logs::Got;
use plan_lanes::{Lane, lanes_of, runners_of};
use std::alloc::{AllocError, Global};
use std::sync::Arc;
use sys_plan::{Plan, Step};
use xs_base::{Batch, Entry};

/// The nodes of a plan by position, and its arcs by number, of which each is as far as the steps have brought it.
#[derive(Drop)]
pub(crate) struct Stage {
    // How many slots the run has.
    pub(crate) limit: Known<u32>,
    runners: Vec<NodeRunner>,
    lanes: Vec<Lane>,
}

impl Stage {
    /// Before the first step, in a run of so many slots. The error is want of memory.
    pub(crate) fn new(alloc: Global, plan: &Arc<Plan>, limit: u32) -> Result<Stage, AllocError>
        ensures limit { IfOk result (λ stage. stage.limit.value ≡ limit) }
        ensures at { IfOk result (λ stage. IsAt plan.now.value stage) }
        ensures start { IfOk result (λ stage. schedule_of stage ≡ schedule_at_start plan.now.value) }
    {
        let runners = runners_of(alloc, plan, limit)?;
        let lanes = lanes_of(alloc, plan)?;
        Ok(Stage {
            limit: Known::of(&limit),
            runners,
            lanes,
        })
    }

    /// Does a step of the plan's schedule. The error is want of memory, and leaves nothing that goes on.
    pub(crate) fn step(
        &mut self,
        alloc: Global,
        plan: &Plan,
        step: Step,
    ) -> Result<PlayLine, AllocError>
        requires at { IsAt plan.now self.old }
        requires there { NamesWhatIsThere plan.now step }
        ensures plays { IfOk result (λ line. Plays plan.now step self.old self.new line) }
    {
        match step {
            Step::Take { node, end } => self.take(alloc, plan, node, end),
            Step::Run { node, count } => self.run(alloc, plan, node, count),
            Step::Send { node, end } => self.send(alloc, plan, node, end),
        }
    }

    // A node reads all that is published of the arc that comes to an end.
    fn take(
        &mut self,
        alloc: Global,
        plan: &Plan,
        node: u8,
        end: u8,
    ) -> Result<PlayLine, AllocError>
        requires at { IsAt plan.now self.old }
        requires there { NamesWhatIsThere plan.now (step.Take node end) }
        ensures plays { IfOk result (λ line. Plays plan.now (step.Take node end) self.old self.new line) }
    {
        let Some(link) = plan.incoming(node, end) else {
            unreachable!()
        };
        let lane = &mut self.lanes[link as usize];
        let step = Step::Take { node, end };
        match lane.log.take(&mut lane.r) {
            Got::Entries { to, batch, .. } => {
                let runner = &mut self.runners[node as usize];
                hear(runner, end, batch, to)?;
                Ok(quiet_line(alloc, step, to))
            }
            Got::Nothing { published } => Ok(quiet_line(alloc, step, published)),
            Got::Closed => unreachable!(),
        }
    }

    // A node runs so many slots, or fewer where its horizon stops it.
    fn run(
        &mut self,
        alloc: Global,
        plan: &Plan,
        node: u8,
        count: u32,
    ) -> Result<PlayLine, AllocError>
        requires at { IsAt plan.now self.old }
        requires there { NamesWhatIsThere plan.now (step.Run node count) }
        ensures plays { IfOk result (λ line. Plays plan.now (step.Run node count) self.old self.new line) }
    {
        let runner = &mut self.runners[node as usize];
        run_slots(runner, count)?;
        Ok(quiet_line(alloc, Step::Run { node, count }, runner.clock()))
    }

    // A node publishes what it has sent by an end.
    fn send(
        &mut self,
        alloc: Global,
        plan: &Plan,
        node: u8,
        end: u8,
    ) -> Result<PlayLine, AllocError>
        requires at { IsAt plan.now self.old }
        requires there { NamesWhatIsThere plan.now (step.Send node end) }
        ensures plays { IfOk result (λ line. Plays plan.now (step.Send node end) self.old self.new line) }
    {
        let Some(link) = plan.outgoing(node, end) else {
            unreachable!()
        };
        let runner = &mut self.runners[node as usize];
        let clock = runner.clock();
        let mut sent = runner.send(end);
        let batch = copy_of(alloc, sent.entries())?;
        let lane = &mut self.lanes[link as usize];
        lane.log.append(&mut lane.w, clock, &mut sent)?;
        Ok(PlayLine {
            step: Step::Send { node, end },
            number: clock,
            batch,
        })
    }
}

// The line of a step that publishes nothing.
fn quiet_line(alloc: Global, step: Step, number: u32) -> PlayLine
    ensures line { line_of result ≡ record { step = step; number = number; entries = [] } }
{
    PlayLine {
        step,
        number,
        batch: Batch::new(alloc),
    }
}

// A node hears what its neighbour published of the arc that comes to an end.
fn hear(runner: &mut NodeRunner, end: u8, batch: Batch, to: u32) -> Result<(), AllocError>
    requires there { IsSome (incoming runner.old.plan runner.old.node end) }
    requires on { seen_at runner.old.horizon end ≤ to }
    requires own { (link : LinkNumber) → incoming runner.old.plan runner.old.node end ≡ Some link → batch.entries ≡ history runner.old.plan link (seen_at runner.old.horizon end) to }
    ensures taken { OnOk result (runner.new ≡ record runner.old { horizon = record runner.old.horizon { ends = slice_set runner.old.horizon.ends end (seen_to to (slice_index_or runner.old.horizon.ends end None)) } }) }
{
    match runner.take(end, batch, to) {
        Ok(()) => Ok(()),
        Err(_) => Err(AllocError),
    }
}

// Runs so many slots of a node, or fewer where its horizon stops it.
fn run_slots(runner: &mut NodeRunner, count: u32) -> Result<(), AllocError>
    ensures clock { OnOk result (runner.new ≡ record runner.old { clock = clock_after runner.old.horizon count runner.old.clock; stepped = runner.new.stepped }) }
{
    for _ in 0..count {
        if !runs_on(runner)? {
            return Ok(());
        }
    }
    Ok(())
}

// Runs the next slot of a node where its horizon lets it, and tells whether that was so.
fn runs_on(runner: &mut NodeRunner) -> Result<bool, AllocError>
    ensures told { IfOk result (λ ran. ran ≡ may_run runner.old.horizon runner.old.clock) }
    ensures slot { OnOk result (runner.new ≡ record runner.old { clock = if may_run runner.old.horizon runner.old.clock then runner.old.clock + 1 else runner.old.clock; stepped = runner.new.stepped }) }
{
    match runner.run_slot()? {
        Ran::Slot => Ok(true),
        Ran::Blocked { .. } | Ran::AtLimit => Ok(false),
    }
}

// These entries in a batch of their own.
fn copy_of(alloc: Global, entries: &[Entry]) -> Result<Batch, AllocError>
    ensures entries { IfOk result (λ batch. batch.entries ≡ entries.now) }
{
    let mut batch = Batch::new(alloc);
    batch.reserve(entries.len())?;
    for e in entries {
        batch.add(*e);
    }
    Ok(batch)
}
