//! `ToldRun`, a serial run of which slots are told.
ghost use Rattle.std.specs.Prelude.{◌≡◌, ◌+◌, ◌-◌, ◌^◌, ◌<◌, ◌≤◌, max, None, Some, length, IfOk, IfSome, OnOk, OnErr};
ghost use Rattle.xs_base.specs.declared.numbers.TheConstants.{THREADS};
ghost use Rattle.core_step.specs.Core.{StandsAt};
ghost use Rattle.issue_model.specs.Seen.{node_after};
ghost use Rattle.told_run.specs.Slots.{IsBefore, IsToldIn};
ghost use Rattle.told_run.specs.Kept.{AreWithin};

use crate::before::{Before, keep};
use crate::tell::{nothing_told, tell};
use core_step::{Core, Told};
use run_plan::{SerialMachine, machines_are_serial};
use std::alloc::{AllocError, Global};
use std::marker::Model;
use sys_plan::Plan;

/// All nodes of a plan, stepped together from slot 0 on: slots may be gone over, and the last one may be told. Contracts see a `ToldRec` of
/// `Rattle.told_run.specs.Slots`. See docs/LOOK.md.
#[derive(Drop)]
pub struct ToldRun {
    machine: SerialMachine,
    // The slot that is told, if one is.
    slot: Option<u32>,
    // What each node was right before that slot, by position.
    befores: Vec<Before>,
    // What is told of each node in that slot, by position.
    told: Vec<Told>,
}

impl Model for ToldRun {
    ghost use Rattle.told_run.specs.Slots.{ToldRec};

    ghost Value = { ToldRec };

    ghost use Rattle.told_run.specs.Inside.{seen_of, IsToldRun};

    ghost view = { seen_of };

    ghost invariant = { IsToldRun };
}

impl ToldRun {
    /// A run by a plan, before slot 0. The error is want of memory.
    pub fn new(alloc: Global, plan: &Plan) -> Result<ToldRun, AllocError>
        ensures plan { IfOk result (λ run. run.plan ≡ plan.now) }
        ensures now { IfOk result (λ run. run.now ≡ 0) }
        ensures none { IfOk result (λ run. run.slot ≡ None) }
    {
        let count = plan.nodes().len();
        let befores = befores_of(alloc, count)?;
        let told = told_of(alloc, count)?;
        let machine = SerialMachine::new(alloc, plan)?;
        Ok(ToldRun {
            machine,
            slot: None,
            befores,
            told,
        })
    }

    /// Goes on until so many slots have passed since the start, and tells none of them; does nothing where they have, but that no slot is told
    /// any more. The error is want of memory, and leaves the run before a slot that is earlier.
    pub fn run(&mut self, limit: u32) -> Result<(), AllocError>
        ensures plan { self.new.plan ≡ self.old.plan }
        ensures ran { OnOk result (self.new.now ≡ max self.old.now limit) }
        ensures none { self.new.slot ≡ None }
        ensures err { OnErr result (self.new.now < limit) }
    {
        self.slot = None;
        self.machine.run(limit)
    }

    /// Passes the next slot, and tells it. The error is want of memory, and leaves the run before the slot; no slot is told then.
    pub fn step(&mut self) -> Result<(), AllocError>
        requires now { self.old.now < 2 ^ 32 - 1 }
        ensures plan { self.new.plan ≡ self.old.plan }
        ensures passed { OnOk result (self.new.now ≡ self.old.now + 1) }
        ensures told { OnOk result (self.new.slot ≡ Some self.old.now) }
        ensures err { OnErr result (self.new ≡ record self.old { slot = None }) }
    {
        self.slot = None;
        let slot = self.machine.now();
        keep(&self.machine, &mut self.befores);
        tell(&mut self.machine, &mut self.told)?;
        self.slot = Some(slot);
        Ok(())
    }

    /// How many slots have passed.
    pub fn now(&self) -> u32
        ensures { result ≡ self.now.now }
    {
        self.machine.now()
    }

    /// How many nodes there are, at most 16.
    pub fn nodes(&self) -> usize
        ensures count { result ≡ length self.now.plan.nodes }
        ensures few { result ≤ 16 }
    {
        self.told.len()
    }

    /// The core of the node at a position, as it is now: after the slot that is told, if one is.
    pub fn core(&self, n: u8) -> &Core
        requires { n < length self.now.plan.nodes }
        ensures stands { StandsAt result.now (node_after self.now.plan self.now.now n) self.now.now }
    {
        machines_are_serial();
        self.machine.core(n)
    }

    /// What the node at a position was right before the slot that is told, if one is.
    pub fn before(&self, n: u8) -> &Before
        requires { n < length self.now.plan.nodes }
        ensures kept { IfSome self.now.slot (λ slot. IsBefore (node_after self.now.plan slot n).core result.now) }
    {
        &self.befores[n as usize]
    }

    /// What is told of the threads of the node at a position in the slot that is told, if one is.
    pub fn told(&self, n: u8) -> &Told
        requires { n < length self.now.plan.nodes }
        ensures told { IfSome self.now.slot (λ slot. IsToldIn self.now.plan slot n result.now) }
        ensures within { IfSome result.now.issue (λ next. next.thread < THREADS) }
    {
        &self.told[n as usize]
    }
}

// Room for what so many nodes are before a slot. The error is want of memory.
fn befores_of(alloc: Global, count: usize) -> Result<Vec<Before>, AllocError>
    ensures { IfOk result (λ befores. length befores.items ≡ count) }
{
    let mut befores = Vec::new(alloc);
    for _ in 0..count {
        befores.push(Before::nothing())?;
    }
    Ok(befores)
}

// Room for what is told of so many nodes. The error is want of memory.
fn told_of(alloc: Global, count: usize) -> Result<Vec<Told>, AllocError>
    ensures count { IfOk result (λ told. length told.items ≡ count) }
    ensures within { IfOk result (λ told. AreWithin told.items) }
{
    let mut all = Vec::new(alloc);
    for _ in 0..count {
        all.push(nothing_told())?;
    }
    Ok(all)
}
