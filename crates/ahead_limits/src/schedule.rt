//! `Numbers`, a schedule worked through in numbers.
ghost use Rattle.std.specs.Prelude.{◌≡◌, ◌*◌, ◌<◌, IfOk, length, replicate, slice_index};
ghost use Rattle.sys_plan.specs.Plan.{incoming, outgoing, NamesWhatIsThere};
ghost use Rattle.ahead_limits.specs.Schedule.{numbers, schedule_at_start, after_step, after_take, after_send, after_run, IsOfPlan};

use crate::Horizon;
use std::alloc::{AllocError, Global};
use std::marker::Model;
use sys_plan::{Plan, Step};

/// How far each node has run, and how much of each arc, of a link or a wire, was seen and published, all in slots from 0 on. Contracts see
/// it as a `ScheduleRec` of `Rattle.ahead_limits.specs.Schedule`. See docs/LOOKAHEAD.md.
#[derive(Drop)]
pub struct Numbers {
    clocks: Vec<u32>,
    seen: Vec<u32>,
    published: Vec<u32>,
}

impl Model for Numbers {
    ghost use Rattle.ahead_limits.specs.Schedule.{ScheduleRec};

    ghost Value = { ScheduleRec };

    ghost view = { λ n. record { clocks = n.clocks.items; seen = n.seen.items; published = n.published.items } };
}

impl Numbers {
    /// The numbers after all steps of a plan, in a run of so many slots. A run of many slots costs no more than one of a slot. The
    /// error is want of memory.
    pub fn of(alloc: Global, plan: &Plan, limit: u32) -> Result<Numbers, AllocError>
        ensures value { IfOk result (λ n. n ≡ numbers plan.now limit) }
        ensures lengths { IfOk result (λ n. IsOfPlan plan.now n) }
    {
        let mut numbers = Numbers::at_start(alloc, plan)?;
        for step in plan.steps() {
            numbers.step(plan, limit, *step);
        }
        Ok(numbers)
    }

    /// The clock of the node at a position: the number of slots that it has run.
    pub fn clock(&self, node: u8) -> u32
        requires node { node < length self.now.clocks }
        ensures value { result ≡ slice_index self.now.clocks node }
    {
        self.clocks[node as usize]
    }

    /// The slot up to which an arc was seen by its receiver.
    pub fn seen(&self, link: u32) -> u32
        requires link { link < length self.now.seen }
        ensures value { result ≡ slice_index self.now.seen link }
    {
        self.seen[link as usize]
    }

    /// The slot up to which an arc was published by its sender.
    pub fn published(&self, link: u32) -> u32
        requires link { link < length self.now.published }
        ensures value { result ≡ slice_index self.now.published link }
    {
        self.published[link as usize]
    }

    // Before the first step.
    #[tactic(auto, using(crate::proofs::Steps::arcs_number))]
    fn at_start(alloc: Global, plan: &Plan) -> Result<Numbers, AllocError>
        ensures { IfOk result (λ n. n ≡ schedule_at_start plan.now) }
    {
        let arcs = 2 * plan.links().len() + plan.wires().len();
        let clocks = vec![in alloc; 0; plan.nodes().len()]?;
        let seen = vec![in alloc; 0; arcs]?;
        let published = vec![in alloc; 0; arcs]?;
        Ok(Numbers {
            clocks,
            seen,
            published,
        })
    }

    // One step.
    fn step(&mut self, plan: &Plan, limit: u32, step: Step)
        requires lengths { IsOfPlan plan.now self.old }
        requires there { NamesWhatIsThere plan.now step }
        ensures { self.new ≡ after_step plan.now limit self.old step }
    {
        match step {
            Step::Take { node, end } => self.take(plan, node, end),
            Step::Run { node, count } => self.run(plan, limit, node, count),
            Step::Send { node, end } => self.send(plan, node, end),
        }
    }

    fn take(&mut self, plan: &Plan, node: u8, end: u8)
        requires { IsOfPlan plan.now self.old }
        ensures { self.new ≡ after_take (incoming plan.now node end) self.old }
    {
        if let Some(link) = plan.incoming(node, end) {
            self.seen[link as usize] = self.published[link as usize];
        }
    }

    fn run(&mut self, plan: &Plan, limit: u32, node: u8, count: u32)
        requires lengths { IsOfPlan plan.now self.old }
        requires node { node < length plan.now.nodes }
        ensures { self.new ≡ after_run plan.now limit node count self.old }
    {
        let horizon = Horizon::as_seen(plan, node, limit, &self.seen);
        self.clocks[node as usize] = horizon.clock_after(self.clocks[node as usize], count);
    }

    fn send(&mut self, plan: &Plan, node: u8, end: u8)
        requires lengths { IsOfPlan plan.now self.old }
        requires node { node < length plan.now.nodes }
        ensures { self.new ≡ after_send (outgoing plan.now node end) (slice_index self.old.clocks node) self.old }
    {
        if let Some(link) = plan.outgoing(node, end) {
            self.published[link as usize] = self.clocks[node as usize];
        }
    }
}
