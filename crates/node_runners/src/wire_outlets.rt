//! `WireOutlet`, what a wire that leaves a node was told and is not published yet. See docs/WIRES.md and docs/LOOKAHEAD.md.
ghost use Rattle.std.specs.Prelude.{ℕ, ◌≡◌, ◌<◌, ◌≤◌, [], ◌++◌, length, OnOk};
ghost use Rattle.xs_base.specs.declared.numbers.TheConstants.{PORTS};
ghost use Rattle.serial_model.specs.Serial.{level_entries};
ghost use Rattle.node_runners.specs.Sent.{AreWires, SameWire, TellsWire, driven_by, no_batch, wire_out};

use node_seats::Seat;
use std::alloc::{AllocError, Global};
use std::marker::Model;
use std::mem;
use xs_base::{Batch, Entry, What};

/// A wire that leaves the pin of a port of a node. Contracts see it as a `WireOutRec` of `Rattle.node_runners.specs.Sent`.
#[derive(Drop)]
pub(crate) struct WireOutlet {
    port: u8,
    // The level that it was told last, 0 at first.
    sent: u32,
    // What it was told and is not published.
    batch: Batch,
    // No entries, and a buffer for what it is told, if one was kept.
    spare: Batch,
}

impl Model for WireOutlet {
    ghost use Rattle.node_runners.specs.Sent.{WireOutRec};

    ghost Value = { WireOutRec };

    ghost use Rattle.std.specs.Prelude.{◌≡◌, []};

    ghost view = { λ w. record { port = w.port; sent = w.sent; batch = w.batch } };

    ghost invariant = { λ w. w.spare.entries ≡ [] };
}

impl WireOutlet {
    /// A wire that leaves the pin of a port, 0 to 28, and was told nothing yet. It takes no memory.
    pub(crate) fn new(alloc: Global, port: u8) -> WireOutlet
        ensures { result ≡ record { port = port; sent = 0; batch = no_batch } }
    {
        WireOutlet {
            port,
            sent: 0,
            batch: Batch::new(alloc),
            spare: Batch::new(alloc),
        }
    }

    /// What it was told and is not published.
    pub(crate) fn entries(&self) -> &[Entry]
        ensures { result.now ≡ self.now.batch.entries }
    {
        self.batch.entries()
    }

    /// What it was told and is not published is this from now on. The answer is what it was.
    pub(crate) fn exchange(&mut self, batch: Batch) -> Batch
        ensures before { result ≡ self.old.batch }
        ensures after { self.new ≡ record self.old { batch = batch } }
    {
        mem::replace(&mut self.batch, batch)
    }

    /// The buffer of a batch with no entries is the spare one from now on.
    pub(crate) fn keep(&mut self, batch: Batch)
        requires { batch.entries ≡ [] }
        ensures { self.new ≡ self.old }
    {
        self.spare = batch;
    }

    /// A batch with no entries, and the spare buffer if one was kept. It takes no memory.
    pub(crate) fn spare(&mut self, alloc: Global) -> Batch
        ensures empty { result.entries ≡ [] }
        ensures same { self.new ≡ self.old }
    {
        mem::replace(&mut self.spare, Batch::new(alloc))
    }

    // Makes room for what a slot can tell it.
    fn make_room(&mut self) -> Result<(), AllocError>
        ensures same { SameWire self.old self.new }
        ensures room { OnOk result (1 ≤ self.new.batch.spare) }
    {
        self.batch.reserve(1)
    }

    // Tells it of a slot what the port of a node drives after it, in room that was made for that.
    fn tell_driven(&mut self, slot: u32, seat: &Seat)
        requires port { self.old.port < PORTS }
        requires room { 1 ≤ self.old.batch.spare }
        ensures { TellsWire slot seat.now.core.core self.old self.new }
    {
        self.tell(slot, seat.driven(self.port).unwrap_or(0));
    }

    // Tells it of a slot what its port drives after it, where that is another level than the one that it was told last, in room that was made.
    fn tell(&mut self, slot: u32, level: u32)
        requires room { 1 ≤ self.old.batch.spare }
        ensures port { self.new.port ≡ self.old.port }
        ensures sent { self.new.sent ≡ level }
        ensures entries { self.new.batch.entries ≡ self.old.batch.entries ++ level_entries slot self.old.sent level }
    {
        if level != self.sent {
            self.batch.add(Entry {
                slot,
                what: What::Level(level),
            });
            self.sent = level;
        }
    }
}

/// Makes room for what a slot can tell each wire. The error is want of memory, and changes nothing but the room.
pub(crate) fn make_level_room(wires: &mut [WireOutlet]) -> Result<(), AllocError>
    ensures same { (k : ℕ) → SameWire (wire_out wires.old k) (wire_out wires.new k) }
    ensures room { OnOk result ((k : ℕ) → k < length wires.new → 1 ≤ (wire_out wires.new k).batch.spare) }
{
    for wire in wires.iter_mut() {
        wire.make_room()?;
    }
    Ok(())
}

/// Tells wires of a slot what their ports drive after it, in room that was made for it.
pub(crate) fn tell_all(wires: &mut [WireOutlet], slot: u32, seat: &Seat)
    requires ports { AreWires wires.old }
    requires room { (k : ℕ) → k < length wires.old → 1 ≤ (wire_out wires.old k).batch.spare }
    ensures tells { (k : ℕ) → k < length wires.old → TellsWire slot seat.now.core.core (wire_out wires.old k) (wire_out wires.new k) }
{
    for wire in wires.iter_mut() {
        wire.tell_driven(slot, seat);
    }
}
