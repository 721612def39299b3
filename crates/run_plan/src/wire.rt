//! `Wire`, one wire: its history, and what of it has come. See docs/WIRES.md.
ghost use Rattle.std.specs.Prelude.{◌≡◌, ◌+◌, ◌-◌, ◌^◌, ◌<◌, ◌≤◌, ◌++◌, false, slice_get, IfSome};
ghost use Rattle.xs_base.specs.Ids.{port_width};
ghost use Rattle.pin_wires.specs.Wires.{driven_or_low};
ghost use Rattle.serial_model.specs.Serial.{level_entries, level_or};
ghost use Rattle.crossings.specs.Crossings.{due_of};
ghost use Rattle.run_plan.specs.Wires.{IsWire, WireGoesOn, with_coming};
ghost use Rattle.run_plan.specs.Quiet.{ComesAfter};

use crate::track::before_next;
use known_value::Known;
use xs_base::{Batch, Entry, What};

/// A wire: it leads from the pin of a port of the node at a position to that of a port of the node at another, with a delay in slots.
#[derive(Drop)]
pub(crate) struct Wire {
    pub(crate) from: u8,
    pub(crate) from_port: u8,
    pub(crate) to: u8,
    pub(crate) to_port: u8,
    pub(crate) delay: u32,
    pub(crate) history: Batch,
    // The place in the history of the first entry that has not come by this slot.
    pub(crate) first: usize,
    // The level that was told last, 0 at first.
    pub(crate) sent: u32,
    // The level that it shows in this slot, 0 at first.
    pub(crate) level: u32,
    // The level that it showed before anything of its history came, 0 at first. Proofs alone read it.
    pub(crate) shown: Known<u32>,
}

impl Wire {
    // Tells of a slot what the first port drives after it, where that is another level than the one that was told last.
    fn tell(&mut self, slot: u32, level: u32)
        requires room { 1 ≤ self.old.history.spare }
        ensures entries { self.new.history.entries ≡ self.old.history.entries ++ level_entries slot self.old.sent level }
        ensures rest { self.new ≡ record self.old { history = self.new.history; sent = level } }
    {
        if level != self.sent {
            self.history.add(Entry {
                slot,
                what: What::Level(level),
            });
            self.sent = level;
        }
    }

    // What comes in a slot, if something does.
    fn coming(&self, slot: u32) -> Option<What>
        ensures { result ≡ due_of slot self.now.delay (slice_get self.now.history.entries self.now.first) }
    {
        what_in(slot, self.delay, self.next_entry())
    }

    // Takes what comes in a slot: whether something does.
    pub(crate) fn take(&mut self, slot: u32) -> bool
        requires first { self.old.first < 2 ^ 63 }
        ensures taken { self.new ≡ with_coming (due_of slot self.old.delay (slice_get self.old.history.entries self.old.first)) self.old }
        ensures same { result ≡ false → self.new.level ≡ self.old.level }
    {
        match self.coming(slot) {
            None => false,
            Some(what) => {
                self.level = level_or(what, self.level);
                self.first += 1;
                true
            }
        }
    }

    /// Goes on to the next slot, of one after which the first port drives this: where that is another level than before, it stands in the
    /// history, in room that was made for an entry. The result is whether a level comes in the next slot.
    pub(crate) fn go_on(&mut self, slot: u32, driven: Option<u32>) -> bool
        requires slot { slot < 2 ^ 32 - 1 }
        requires wire { IsWire slot self.old }
        requires room { 1 ≤ self.old.history.spare }
        requires fits { IfSome driven (λ value. value < 2 ^ port_width self.old.from_port) }
        ensures next { WireGoesOn slot (driven_or_low driven) self.old self.new }
        ensures same { result ≡ false → self.new.level ≡ self.old.level }
    {
        self.tell(slot, driven_or_low(driven));
        self.take(slot + 1)
    }

    /// The last slot up to a limit in which, and before which from a slot on, no level comes that has not come by that slot. It is before that
    /// slot only where the limit is.
    pub(crate) fn nothing_comes_to(&self, from: u32, limit: u32) -> u32
        requires wire { IsWire from self.now }
        ensures within { result ≤ limit }
        ensures quiet { from ≤ result → ComesAfter result self.now }
    {
        before_next(self.next_entry(), self.delay, limit)
    }

    // The first entry that has not come by this slot.
    fn next_entry(&self) -> Option<Entry>
        ensures { result ≡ slice_get self.now.history.entries self.now.first }
    {
        self.history.entries().get(self.first).copied()
    }
}

// What an entry tells, if it comes in a slot.
fn what_in(slot: u32, delay: u32, entry: Option<Entry>) -> Option<What>
    ensures { result ≡ due_of slot delay entry }
{
    match entry {
        None => None,
        Some(e) => {
            if u64::from(e.slot) + u64::from(delay) == u64::from(slot) {
                Some(e.what)
            } else {
                None
            }
        }
    }
}

// The level that an entry leaves, where it was this before it.
fn level_or(what: What, before: u32) -> u32
    ensures { result ≡ level_or what before }
{
    match what {
        What::Level(level) => level,
        _ => before,
    }
}

// The level of what a port drives, 0 where it drives nothing.
pub(crate) fn driven_or_low(driven: Option<u32>) -> u32
    ensures { result ≡ driven_or_low driven }
{
    driven.unwrap_or(0)
}
