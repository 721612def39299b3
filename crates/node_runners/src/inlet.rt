//! `Inlet`, what comes to an end and has not arrived yet. See docs/LOOKAHEAD.md.
ghost use Rattle.std.specs.Prelude.{◌≡◌, ◌+◌, ◌≤◌, [], ◌++◌, length, map, fold, slice_get, IfErr, OnOk, OnErr};
ghost use Rattle.std.specs.VecDeque.{deque_len, deque_capacity};
ghost use Rattle.crossings.specs.Crossings.{crossing_of};
ghost use Rattle.serial_model.specs.Serial.{arriving};
ghost use Rattle.node_runners.specs.Queue.{AreWaiting, AllWait, TakesNext, after_slot, arrivals_by, longer, nearer_arrival};

use crossings::{Crossing, due};
use std::alloc::Global;
use std::collections::VecDeque;
use std::marker::Model;
use std::mem;
use xs_base::{Batch, Entry};
use xs_model::Arrivals;

/// What was seen of the arc that comes to an end, and has not arrived yet. Contracts see it as an `InletRec` of
/// `Rattle.node_runners.specs.Queue`. Where no arc comes the delay is 0, and nothing waits.
#[derive(Drop)]
pub(crate) struct Inlet {
    delay: u32,
    queue: VecDeque<Entry>,
    // No entries, and the buffer of the batch that came last, unless that was given away.
    taken: Batch,
    // No entries, and a buffer for what is sent by the link end, if one was kept.
    spare: Batch,
}

impl Model for Inlet {
    ghost use Rattle.node_runners.specs.Queue.{InletRec};

    ghost Value = { InletRec };

    ghost use Rattle.std.specs.Prelude.{◌≡◌, []};

    ghost view = { λ i. record { delay = i.delay; queue = i.queue.items } };

    ghost invariant = { λ i. (i.taken.entries ≡ []) × (i.spare.entries ≡ []) };
}

impl Inlet {
    /// An end to which an arc with this delay comes, of which nothing was seen.
    pub(crate) fn new(alloc: Global, delay: u32) -> Inlet
        ensures { result ≡ record { delay = delay; queue = [] } }
    {
        Inlet {
            delay,
            queue: VecDeque::new(alloc),
            taken: Batch::new(alloc),
            spare: Batch::new(alloc),
        }
    }

    /// Puts what was seen after what waits, and keeps the buffer of the batch. The error is want of memory: it changes nothing, and has the
    /// batch.
    pub(crate) fn append(&mut self, mut batch: Batch) -> Result<(), Batch>
        ensures ok { OnOk result (self.new ≡ longer self.old batch.entries) }
        ensures err { OnErr result (self.new ≡ self.old) }
        ensures batch { IfErr result (λ b. b.entries ≡ batch.entries) }
    {
        if self.queue.reserve(batch.entries().len()).is_err() {
            return Err(batch);
        }
        put_all(&mut self.queue, batch.entries());
        batch.clear();
        self.taken = batch;
        Ok(())
    }

    /// A batch with no entries, and the buffer of the one that came last, unless that was given away. It takes no memory.
    pub(crate) fn taken(&mut self, alloc: Global) -> Batch
        ensures empty { result.entries ≡ [] }
        ensures same { self.new ≡ self.old }
    {
        mem::replace(&mut self.taken, Batch::new(alloc))
    }

    /// The buffer of a batch with no entries is the spare one from now on.
    pub(crate) fn keep(&mut self, batch: Batch)
        requires { batch.entries ≡ [] }
        ensures { self.new ≡ self.old }
    {
        self.spare = batch;
    }

    /// A batch with no entries, and the spare buffer if one was kept. It takes no memory.
    pub(crate) fn spare(&mut self, alloc: Global) -> Batch
        ensures empty { result.entries ≡ [] }
        ensures same { self.new ≡ self.old }
    {
        mem::replace(&mut self.spare, Batch::new(alloc))
    }

    // What arrives in a slot leaves the queue.
    fn arrive(&mut self, slot: u32) -> Crossing
        requires waits { AreWaiting slot self.old.delay self.old.queue }
        ensures arrives { result ≡ crossing_of (arriving slot self.old.delay self.old.queue) }
        ensures left { self.new ≡ after_slot slot self.old }
    {
        let crossing = due(slot, self.delay, self.at(0), self.at(1));
        for _ in 0..crossing.count() {
            let _ = self.queue.pop_front();
        }
        crossing
    }

    /// The first entry of what waits, if it has arrived by a slot: it then leaves the queue.
    pub(crate) fn next_by(&mut self, slot: u32) -> Option<Entry>
        ensures { TakesNext slot self.old result self.new }
    {
        match self.at(0) {
            None => None,
            Some(e) => {
                if u64::from(e.slot) + u64::from(self.delay) > u64::from(slot) {
                    return None;
                }
                let _ = self.queue.pop_front();
                Some(e)
            }
        }
    }

    /// The slot in which the first entry that waits arrives, if that is before a bound, and else the bound.
    pub(crate) fn nearer_arrival(&self, bound: u32) -> u32
        ensures { result ≡ nearer_arrival bound self.now }
    {
        match self.at(0) {
            None => bound,
            Some(e) => {
                let arrival = u64::from(e.slot) + u64::from(self.delay);
                arrival.min(u64::from(bound)) as u32
            }
        }
    }

    // The entry at a place of the queue.
    fn at(&self, place: usize) -> Option<Entry>
        ensures { result ≡ slice_get self.now.queue place }
    {
        self.queue.get(place).copied()
    }
}

// Puts entries at the end, in room that was made for them.
fn put_all(queue: &mut VecDeque<Entry>, entries: &[Entry])
    requires room { deque_len queue.old + length entries.now ≤ deque_capacity queue.old }
    ensures items { queue.new.items ≡ queue.old.items ++ entries.now }
{
    for e in entries {
        // It cannot fail: the room is there.
        let _ = queue.push_back(*e);
    }
}

/// What arrives in a slot leaves the queues of a node's link ends.
pub(crate) fn arrive_all(inlets: &mut [Inlet], slot: u32) -> Arrivals
    requires few { length inlets.old ≤ 8 }
    requires waits { AllWait slot inlets.old }
    ensures arrivals { result ≡ arrivals_by slot inlets.old }
    ensures left { inlets.new ≡ map (after_slot slot) inlets.old }
{
    let mut arrivals = Arrivals {
        tokens: [None; 8],
        credits: [false; 8],
    };
    for (end, inlet) in inlets.iter_mut().enumerate() {
        let crossing = inlet.arrive(slot);
        arrivals.tokens[end] = crossing.token;
        arrivals.credits[end] = crossing.credit;
    }
    arrivals
}

/// The least of a bound and of the slots in which the first entry of each of these link ends arrives. No queue is gone through: the entries
/// of each wait in the order in which they arrive.
pub(crate) fn nearest_arrival(inlets: &[Inlet], bound: u32) -> u32
    ensures { result ≡ fold nearer_arrival bound inlets.now }
{
    inlets
        .iter()
        .fold(bound, |nearest, inlet| inlet.nearer_arrival(nearest))
}
