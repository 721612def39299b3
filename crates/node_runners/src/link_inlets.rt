//! `LinkInlets`, what comes to the link ends of a node and has not arrived yet. See docs/LOOKAHEAD.md.
ghost use Rattle.std.specs.Prelude.{◌≡◌, ◌<◌, ◌≤◌, false, [], length, map, slice_set, IfErr, OnOk, OnErr};
ghost use Rattle.xs_base.specs.Numbers.{Slot};
ghost use Rattle.core_step.specs.Core.{NothingArrives};
ghost use Rattle.quiet_model.specs.Slots.{IsFirst};
ghost use Rattle.node_runners.specs.Queue.{AllWait, after_slot, arrivals_by, inlet_at, longer, some_arrive};

use crate::inlet::{Inlet, arrive_all, nearest_arrival};
use std::alloc::Global;
use std::marker::Model;
use xs_base::Batch;
use xs_model::Arrivals;

// What arrives where nothing does.
const NOTHING: Arrivals = Arrivals {
    tokens: [None; 8],
    credits: [false; 8],
};

/// What was seen of the links that come to the link ends of a node, and has not arrived yet, and what arrived in the slot that was asked of
/// last. Contracts see it as a `LinkInletsRec` of `Rattle.node_runners.specs.Queue`.
#[derive(Drop)]
pub(crate) struct LinkInlets {
    // By link end, as far as the last to which a link comes.
    ends: Vec<Inlet>,
    // Nothing of what waits arrives before this slot. It may be less than the first slot in which something does.
    next: u32,
    // Whether something arrived in the slot that was asked of last.
    some: bool,
    // What arrived in the last slot in which something did.
    arrived: Arrivals,
    // It is kept, so that no slot has to make it.
    nothing: Arrivals,
}

impl Model for LinkInlets {
    ghost use Rattle.node_runners.specs.Queue.{LinkInletsRec};

    ghost Value = { LinkInletsRec };

    ghost use Rattle.std.specs.Prelude.{cond};
    ghost use Rattle.node_runners.specs.Queue.{AreInlets};

    ghost view = { λ i. record { ends = i.ends.items; arrived = cond i.some i.arrived i.nothing } };

    ghost invariant = { λ i. AreInlets i.next i.ends.items i.nothing };
}

impl LinkInlets {
    /// These link ends, before the first slot.
    pub(crate) fn of(ends: Vec<Inlet>) -> LinkInlets
        ensures { result.ends ≡ ends.items }
    {
        LinkInlets {
            ends,
            next: 0,
            some: false,
            arrived: NOTHING,
            nothing: NOTHING,
        }
    }

    /// Puts what was seen of the link that comes to a link end after what waits there, and keeps the buffer. The error is want of memory: it
    /// changes nothing, and has the batch.
    pub(crate) fn append(&mut self, end: u8, batch: Batch) -> Result<(), Batch>
        requires end { end < length self.old.ends }
        ensures ok { OnOk result (self.new ≡ record self.old { ends = slice_set self.old.ends end (longer (inlet_at self.old.ends end) batch.entries) }) }
        ensures err { OnErr result (self.new ≡ self.old) }
        ensures batch { IfErr result (λ b. b.entries ≡ batch.entries) }
    {
        // Where nothing came no buffer did, and the one before it stays.
        if batch.entries().is_empty() {
            return Ok(());
        }
        // The next slot looks for what arrives.
        self.next = 0;
        let inlet = &mut self.ends[end as usize];
        inlet.append(batch)
    }

    /// The buffer of a batch with no entries is the spare one of a link end from now on. It takes no memory.
    pub(crate) fn keep(&mut self, end: u8, batch: Batch)
        requires { batch.entries ≡ [] }
        ensures { self.new ≡ self.old }
    {
        let end = end as usize;
        if end < self.ends.len() {
            let inlet = &mut self.ends[end];
            inlet.keep(batch);
        }
    }

    /// A batch with no entries, and the buffer of the one that came last to a link end, unless that was given away. It takes no memory.
    pub(crate) fn taken(&mut self, alloc: Global, end: u8) -> Batch
        ensures empty { result.entries ≡ [] }
        ensures same { self.new ≡ self.old }
    {
        let end = end as usize;
        if end < self.ends.len() {
            let inlet = &mut self.ends[end];
            inlet.taken(alloc)
        } else {
            Batch::new(alloc)
        }
    }

    /// A batch with no entries, and the spare buffer of a link end if one was kept. It takes no memory.
    pub(crate) fn spare(&mut self, alloc: Global, end: u8) -> Batch
        ensures empty { result.entries ≡ [] }
        ensures same { self.new ≡ self.old }
    {
        let end = end as usize;
        if end < self.ends.len() {
            let inlet = &mut self.ends[end];
            inlet.spare(alloc)
        } else {
            Batch::new(alloc)
        }
    }

    /// What arrives in a slot leaves the queues, and `arrived` has it then. The answer tells whether anything does.
    // In most slots nothing does, and no link end is looked at.
    #[inline]
    pub(crate) fn arrive(&mut self, slot: u32) -> bool
        requires few { length self.old.ends ≤ 8 }
        requires waits { AllWait slot self.old.ends }
        ensures arrives { self.new.arrived ≡ arrivals_by slot self.old.ends }
        ensures nothing { result ≡ false → NothingArrives self.new.arrived }
        ensures left { self.new.ends ≡ map (after_slot slot) self.old.ends }
    {
        if slot < self.next {
            self.some = false;
            return false;
        }
        self.gather(slot)
    }

    // The same, where it is not known whether anything arrives.
    #[cold]
    #[inline(never)]
    fn gather(&mut self, slot: u32) -> bool
        requires few { length self.old.ends ≤ 8 }
        requires waits { AllWait slot self.old.ends }
        ensures arrives { self.new.arrived ≡ arrivals_by slot self.old.ends }
        ensures nothing { result ≡ false → NothingArrives self.new.arrived }
        ensures left { self.new.ends ≡ map (after_slot slot) self.old.ends }
    {
        let next = nearest_arrival(&self.ends, u32::MAX);
        self.next = next;
        if slot < next {
            self.some = false;
            return false;
        }
        self.arrived = arrive_all(&mut self.ends, slot);
        self.next = 0;
        self.some = true;
        true
    }

    /// What arrived in the slot that was asked of last.
    #[inline]
    pub(crate) fn arrived(&self) -> &Arrivals
        ensures { result.now ≡ self.now.arrived }
    {
        if self.some {
            &self.arrived
        } else {
            &self.nothing
        }
    }

    /// The first slot before a bound in which something arrives of what waits, and the bound where nothing does.
    pub(crate) fn first_arrival(&self, bound: u32) -> u32
        requires few { length self.now.ends ≤ 8 }
        ensures first { (from : Slot) → from ≤ bound → AllWait from self.now.ends → IsFirst (some_arrive self.now.ends) from bound result }
        ensures within { result ≤ bound }
    {
        nearest_arrival(&self.ends, bound)
    }
}
