//! `Outlets`, what a node has sent and not published yet. See docs/LOOKAHEAD.md.
ghost use Rattle.std.specs.Prelude.{◌≡◌, ◌≤◌, [], length, OnOk};
ghost use Rattle.xs_base.specs.declared.numbers.TheConstants.{LINK_ENDS};
ghost use Rattle.node_runners.specs.Sent.{AreWires, HasEntryRoom, SameOutlets, PutsOn, batch_by, with_batch};
ghost use Rattle.node_runners.specs.Ends.{IsThere};

use crate::outlet::{make_room, put_all};
use crate::wire_outlets::{WireOutlet, make_level_room, tell_all};
use node_seats::Seat;
use std::alloc::{AllocError, Global};
use std::marker::Model;
use std::mem;
use xs_base::numbers::LINK_ENDS;
use xs_base::{Batch, Entry};

/// What was sent by the ends of a node and not published. Contracts see it as an `OutletsRec` of `Rattle.node_runners.specs.Sent`.
#[derive(Drop)]
pub(crate) struct Outlets {
    // By link end, as far as the last by which a link leaves.
    links: Vec<Batch>,
    // By end, from 8 on.
    wires: Vec<WireOutlet>,
}

impl Model for Outlets {
    ghost use Rattle.node_runners.specs.Sent.{OutletsRec};

    ghost Value = { OutletsRec };

    ghost view = { λ o. record { links = o.links.items; wires = o.wires.items } };
}

impl Outlets {
    /// What was sent by these link ends, and by these wires.
    pub(crate) fn of(links: Vec<Batch>, wires: Vec<WireOutlet>) -> Outlets
        ensures { result ≡ record { links = links.items; wires = wires.items } }
    {
        Outlets { links, wires }
    }

    /// Makes room for what a slot can send. The error is want of memory, and changes nothing but the room.
    #[inline]
    pub(crate) fn make_room(&mut self) -> Result<(), AllocError>
        ensures same { SameOutlets self.old self.new }
        ensures room { OnOk result (HasEntryRoom self.new) }
    {
        make_room(&mut self.links)?;
        make_level_room(&mut self.wires)
    }

    /// Puts what a slot of the node gave, and what its ports drive after it, after what was sent, in room that was made for it.
    #[inline]
    pub(crate) fn put_all(&mut self, slot: u32, seat: &Seat)
        requires few { length self.old.links ≤ LINK_ENDS }
        requires ports { AreWires self.old.wires }
        requires room { HasEntryRoom self.old }
        ensures puts { PutsOn slot seat.now self.old self.new }
    {
        put_all(&mut self.links, slot, &seat.given);
        tell_all(&mut self.wires, slot, seat);
    }

    /// What was sent by an end.
    pub(crate) fn sent(&self, end: u8) -> &[Entry]
        requires there { IsThere end (length self.now.links) (length self.now.wires) }
        ensures value { result.now ≡ (batch_by self.now end).entries }
    {
        if end < LINK_ENDS {
            self.links[end as usize].entries()
        } else {
            self.wires[(end - LINK_ENDS) as usize].entries()
        }
    }

    /// What was sent by an end is this from now on. The answer is what it was.
    pub(crate) fn exchange(&mut self, end: u8, batch: Batch) -> Batch
        requires there { IsThere end (length self.old.links) (length self.old.wires) }
        ensures before { result ≡ batch_by self.old end }
        ensures after { self.new ≡ with_batch end batch self.old }
    {
        if end < LINK_ENDS {
            mem::replace(&mut self.links[end as usize], batch)
        } else {
            let wire = &mut self.wires[(end - LINK_ENDS) as usize];
            wire.exchange(batch)
        }
    }

    /// The buffer of a batch with no entries is the spare one of a wire from now on.
    pub(crate) fn keep(&mut self, wire: u8, batch: Batch)
        requires empty { batch.entries ≡ [] }
        ensures same { self.new ≡ self.old }
    {
        let wire = wire as usize;
        if wire < self.wires.len() {
            let wire = &mut self.wires[wire];
            wire.keep(batch);
        }
    }

    /// A batch with no entries, and the spare buffer of a wire if one was kept. It takes no memory.
    pub(crate) fn spare(&mut self, alloc: Global, wire: u8) -> Batch
        ensures empty { result.entries ≡ [] }
        ensures same { self.new ≡ self.old }
    {
        let wire = wire as usize;
        if wire < self.wires.len() {
            let wire = &mut self.wires[wire];
            wire.spare(alloc)
        } else {
            Batch::new(alloc)
        }
    }
}
