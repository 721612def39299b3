//! `NodeCounts`, what is counted of a node.
ghost use Rattle.std.specs.Prelude.{◌≡◌, ◌+◌, ◌<◌, ◌≤◌, length, replicate, IfOk};
ghost use Rattle.xs_base.specs.declared.numbers.TheConstants.{THREADS};
ghost use Rattle.told_run.specs.Slots.{TellsNode};
ghost use Rattle.issue_model.specs.Issues.{thread_in};
ghost use Rattle.profile_model.specs.Counts.{char_at, pc_of, pc_in, place_at};
ghost use Rattle.run_counts.specs.Tallies.{IsNothing};
ghost use Rattle.run_counts.specs.Counted.{AreThreads, ArePlaces, IsCounted};

use crate::counting::count_byte;
use crate::links::LinkCounts;
use crate::places::{PlaceCounts, place_of};
use slot_marks::{mark_char, mark_in};
use std::alloc::{AllocError, Global};
use sys_plan::NodePlan;
use told_run::{Before, ToldRun};
use xs_model::Run;

/// What is counted of a node in the first slots of a run. See docs/LOOK.md.
#[derive(Drop)]
pub struct NodeCounts {
    /// Of each thread, in how many slots a chart shows it by a character: by the byte of that.
    pub threads: [[u64; 256]; 8],
    pub places: PlaceCounts,
    pub links: LinkCounts,
}

impl NodeCounts {
    /// Nothing, of a node. The error is want of memory.
    pub(crate) fn new(alloc: Global, node: &NodePlan) -> Result<NodeCounts, AllocError>
        ensures none { IfOk result (λ counts. IsNothing node.now counts) }
    {
        Ok(NodeCounts {
            threads: no_threads(),
            places: PlaceCounts::new(alloc, node.image.code().len() + 1)?,
            links: LinkCounts::new(),
        })
    }

    /// Counts what the node at a position does in a slot, which the run has passed and tells.
    pub(crate) fn count(&mut self, run: &ToldRun, slot: u32, n: u8, node: &NodePlan)
        requires tells { TellsNode run.now slot n node.now }
        requires before { IsCounted run.now.plan slot n node.now self.old }
        ensures counted { IsCounted run.now.plan (slot + 1) n node.now self.new }
    {
        self.count_threads(run, slot, n, node);
        self.links.count(&run.core(n).link_ends(), slot);
    }

    // What its threads do.
    fn count_threads(&mut self, run: &ToldRun, slot: u32, n: u8, node: &NodePlan)
        requires tells { TellsNode run.now slot n node.now }
        requires before { IsCounted run.now.plan slot n node.now self.old }
        ensures threads { AreThreads run.now.plan (slot + 1) n node.now self.new.threads }
        ensures places { ArePlaces run.now.plan (slot + 1) n node.now self.new.places }
        ensures links { self.new.links ≡ self.old.links }
    {
        for k in 0..8u8 {
            let c = char_in(run, slot, n, node, k);
            let place = place_in(run, slot, n, node, k);
            count_byte(&mut self.threads[k as usize], c);
            self.places.count(place, c);
        }
    }
}

fn no_threads() -> [[u64; 256]; 8]
    ensures { result ≡ replicate THREADS (replicate 256 0) }
{
    [[0; 256]; 8]
}

// How a chart shows thread k in the slot.
fn char_in(run: &ToldRun, slot: u32, n: u8, node: &NodePlan, k: u8) -> u8
    requires tells { TellsNode run.now slot n node.now }
    requires thread { k < THREADS }
    ensures { result ≡ char_at run.now.plan n node.now k slot }
{
    mark_char(mark_in(run, slot, n, k))
}

// At which place it is before the slot.
fn place_in(run: &ToldRun, slot: u32, n: u8, node: &NodePlan, k: u8) -> usize
    requires tells { TellsNode run.now slot n node.now }
    requires thread { k < THREADS }
    ensures value { result ≡ place_at run.now.plan n node.now k slot }
    ensures within { result ≤ length node.now.image.code }
{
    place_of(&node.image, pc_before(run.before(n), k))
}

// The address of the instruction that it is at.
fn pc_before(before: &Before, k: u8) -> u32
    requires thread { k < THREADS }
    ensures { result ≡ pc_in (thread_in before.now.threads k) }
{
    let thread = before.threads[k as usize];
    pc_of(thread.run, thread.pc)
}

// That is its pc, or at sync that before it.
fn pc_of(run: Run, pc: u32) -> u32
    ensures { result ≡ pc_of run pc }
{
    match run {
        Run::AtSync => pc.saturating_sub(4),
        _ => pc,
    }
}
