//! `WireInlets`, what comes to a node by wires and has not come yet. See docs/WIRES.md and docs/LOOKAHEAD.md.
ghost use Rattle.std.specs.Prelude.{ℕ, ◌≡◌, ◌≢◌, ◌<◌, [], length, map, fold, slice_index_or, slice_set, IfErr, OnOk, OnErr};
ghost use Rattle.xs_base.specs.Numbers.{PortNumber};
ghost use Rattle.node_seats.specs.Shown.{IsSteady};
ghost use Rattle.node_runners.specs.Wires.{AreLevels, HasLevels, ArePortsApart, AwaitUntil, TakesLevels, wire_in, wire_after, level_by, nearer_level, longer_wire};

use crate::inlet::Inlet;
use node_seats::Pins;
use std::alloc::Global;
use std::marker::Model;
use xs_base::{Batch, What};

/// A wire that comes to the pin of a port, 0 to 28, and what was seen of it and has not come yet: levels that fit the pin.
#[derive(Drop)]
pub(crate) struct WireInlet {
    pub(crate) port: u8,
    pub(crate) inlet: Inlet,
}

impl WireInlet {
    // What has come by a slot leaves the queue and shows at the pin.
    fn come(&mut self, slot: u32, pins: &mut Pins)
        requires levels { AreLevels self.old }
        requires steady { IsSteady slot pins.old }
        ensures left { self.new ≡ wire_after slot self.old }
        ensures pins { TakesLevels slot pins.old pins.new }
        ensures level { slice_index_or pins.new.levels self.old.port 0 ≡ level_by slot self.old (slice_index_or pins.old.levels self.old.port 0) }
        ensures others { (port : PortNumber) → port ≢ self.old.port → slice_index_or pins.new.levels port 0 ≡ slice_index_or pins.old.levels port 0 }
    {
        while let Some(e) = self.inlet.next_by(slot) {
            if let What::Level(level) = e.what {
                pins.come(self.port, level, slot);
            }
        }
    }
}

/// The wires that come to the pins of a node, by end from 8 on. Contracts see the list of them.
#[derive(Drop)]
pub(crate) struct WireInlets {
    ends: Vec<WireInlet>,
    // No level of what waits comes before this slot. It may be less than the first slot in which one does.
    next: u32,
}

impl Model for WireInlets {
    ghost use Rattle.std.specs.Prelude.{List};
    ghost use Rattle.node_runners.specs.declared.wire_inlets.WireInlet.{WireInlet};

    ghost Value = { List WireInlet };

    ghost use Rattle.node_runners.specs.Wires.{AwaitUntil};

    ghost view = { λ w. w.ends.items };

    ghost invariant = { λ w. AwaitUntil w.next w.ends.items };
}

impl WireInlets {
    /// These wires, before the first slot.
    pub(crate) fn of(ends: Vec<WireInlet>) -> WireInlets
        ensures { result ≡ ends.items }
    {
        WireInlets { ends, next: 0 }
    }

    /// Puts what was seen of a wire after what waits of it, and keeps the buffer. The error is want of memory: it changes nothing, and has
    /// the batch.
    pub(crate) fn append(&mut self, wire: u8, batch: Batch) -> Result<(), Batch>
        requires wire { wire < length self.old }
        ensures ok { OnOk result (self.new ≡ slice_set self.old wire (longer_wire (wire_in self.old wire) batch.entries)) }
        ensures err { OnErr result (self.new ≡ self.old) }
        ensures batch { IfErr result (λ b. b.entries ≡ batch.entries) }
    {
        // Where nothing came no buffer did, and the one before it stays.
        if batch.entries().is_empty() {
            return Ok(());
        }
        // The next slot looks for what comes.
        self.next = 0;
        let wire = &mut self.ends[wire as usize];
        wire.inlet.append(batch)
    }

    /// A batch with no entries, and the buffer of the one that came last of a wire, unless that was given away. It takes no memory.
    pub(crate) fn taken(&mut self, alloc: Global, wire: u8) -> Batch
        ensures empty { result.entries ≡ [] }
        ensures same { self.new ≡ self.old }
    {
        let wire = wire as usize;
        if wire < self.ends.len() {
            let wire = &mut self.ends[wire];
            wire.inlet.taken(alloc)
        } else {
            Batch::new(alloc)
        }
    }

    /// What has come by a slot leaves the queues and shows at the pins of the node, of which those of that slot were not looked at yet.
    // In most slots no level comes, and no wire is looked at.
    #[inline]
    pub(crate) fn come(&mut self, slot: u32, pins: &mut Pins)
        requires levels { HasLevels self.old }
        requires apart { ArePortsApart self.old }
        requires steady { IsSteady slot pins.old }
        ensures left { self.new ≡ map (wire_after slot) self.old }
        ensures pins { TakesLevels slot pins.old pins.new }
        ensures levels { (k : ℕ) → k < length self.old →
            slice_index_or pins.new.levels (wire_in self.old k).port 0 ≡ level_by slot (wire_in self.old k) (slice_index_or pins.old.levels (wire_in self.old k).port 0) }
    {
        if slot < self.next {
            return;
        }
        self.look_for(slot, pins);
    }

    // The same, where it is not known whether a level comes.
    #[cold]
    #[inline(never)]
    fn look_for(&mut self, slot: u32, pins: &mut Pins)
        requires levels { HasLevels self.old }
        requires apart { ArePortsApart self.old }
        requires steady { IsSteady slot pins.old }
        ensures left { self.new ≡ map (wire_after slot) self.old }
        ensures pins { TakesLevels slot pins.old pins.new }
        ensures levels { (k : ℕ) → k < length self.old →
            slice_index_or pins.new.levels (wire_in self.old k).port 0 ≡ level_by slot (wire_in self.old k) (slice_index_or pins.old.levels (wire_in self.old k).port 0) }
    {
        come_all(&mut self.ends, slot, pins);
        self.next = nearest_level(&self.ends, u32::MAX);
    }
}

// What has come by a slot leaves the queues of these wires and shows at their pins.
fn come_all(wires: &mut [WireInlet], slot: u32, pins: &mut Pins)
    requires levels { HasLevels wires.old }
    requires apart { ArePortsApart wires.old }
    requires steady { IsSteady slot pins.old }
    ensures left { wires.new ≡ map (wire_after slot) wires.old }
    ensures pins { TakesLevels slot pins.old pins.new }
    ensures levels { (k : ℕ) → k < length wires.old →
        slice_index_or pins.new.levels (wire_in wires.old k).port 0 ≡ level_by slot (wire_in wires.old k) (slice_index_or pins.old.levels (wire_in wires.old k).port 0) }
{
    for wire in wires.iter_mut() {
        wire.come(slot, pins);
    }
}

// The least of a bound and of the slots in which the first entry of each of these wires comes.
fn nearest_level(wires: &[WireInlet], bound: u32) -> u32
    ensures { result ≡ fold nearer_level bound wires.now }
{
    wires
        .iter()
        .fold(bound, |nearest, wire| wire.inlet.nearer_arrival(nearest))
}
