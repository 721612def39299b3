//! `Track`, one directed link: its history, and what of it arrives. See docs/LINKS.md.
ghost use Rattle.std.specs.Prelude.{◌≡◌, ◌+◌, ◌-◌, ◌^◌, ◌<◌, ◌≤◌, ◌++◌, false, slice_get, IfSome};
ghost use Rattle.xs_base.specs.declared.numbers.TheConstants.{LINK_ENDS};
ghost use Rattle.serial_model.specs.Serial.{sent_by};
ghost use Rattle.crossings.specs.Crossings.{due_of, seen_of, no_crossing, entry_count};
ghost use Rattle.run_plan.specs.Tracks.{IsTrack, GoesOn};
ghost use Rattle.run_plan.specs.Quiet.{ArrivesAfter};

use crossings::{Crossing, due};
use trace_lines::Emissions;
use xs_base::{Batch, Entry};

/// A directed link: it leads from a link end of the node at a position to the node at another, with a delay in slots.
#[derive(Drop)]
pub(crate) struct Track {
    pub(crate) from: u8,
    pub(crate) from_end: u8,
    pub(crate) to: u8,
    pub(crate) delay: u32,
    pub(crate) history: Batch,
    // The place in the history of the first entry that has not arrived before this slot.
    pub(crate) first: usize,
    // What arrives in this slot.
    pub(crate) arrived: Crossing,
}

impl Track {
    // What arrives in a slot, of the first two entries that may. That costs little where there is none.
    fn seen(&self, slot: u32) -> Crossing
        requires { self.now.first < 2 ^ 63 }
        ensures { result ≡ seen_of (due_of slot self.now.delay (slice_get self.now.history.entries self.now.first)) (due_of slot self.now.delay (slice_get self.now.history.entries (self.now.first + 1))) }
    {
        let entries = self.history.entries();
        match entries.get(self.first).copied() {
            None => Crossing::none(),
            // The second is read only where the first arrives.
            Some(e) if u64::from(e.slot) + u64::from(self.delay) != u64::from(slot) => {
                Crossing::none()
            }
            first => due(
                slot,
                self.delay,
                first,
                entries.get(self.first + 1).copied(),
            ),
        }
    }

    // What arrived in this slot is behind it. That costs little where nothing did.
    fn pass(&mut self)
        requires { self.old.first < 2 ^ 63 }
        ensures passed { self.new ≡ record self.old { first = self.old.first + entry_count self.old.arrived; arrived = no_crossing } }
        ensures most { self.new.first ≤ self.old.first + 2 }
    {
        if self.arrived.is_some() {
            self.first += self.arrived.count();
            self.arrived = Crossing::none();
        }
    }

    // Notes what arrives in a slot, where nothing was noted yet: whether anything does. That costs little where nothing does.
    pub(crate) fn see(&mut self, slot: u32) -> bool
        requires first { self.old.first < 2 ^ 63 }
        requires nothing { self.old.arrived ≡ no_crossing }
        ensures quiet { result ≡ false → self.new.arrived ≡ no_crossing }
        ensures seen { self.new ≡ record self.old { arrived = seen_of (due_of slot self.old.delay (slice_get self.old.history.entries self.old.first)) (due_of slot self.old.delay (slice_get self.old.history.entries (self.old.first + 1))) } }
    {
        let seen = self.seen(slot);
        let some = seen.is_some();
        if some {
            self.arrived = seen;
        }
        some
    }

    // Puts what the sender's link end sent in a slot after the history.
    fn append(&mut self, slot: u32, sent: &Emissions)
        requires end { self.old.from_end < LINK_ENDS }
        requires room { 2 ≤ self.old.history.spare }
        ensures entries { self.new.history.entries ≡ self.old.history.entries ++ sent_by slot sent.now self.old.from_end }
        ensures rest { self.new ≡ record self.old { history = self.new.history } }
    {
        Crossing::sent(sent, self.from_end).put(slot, &mut self.history);
    }

    /// Goes on to the next slot: what arrived in this one is behind it, and what the sender's link end sent stands
    /// in the history, in room that was made for two entries. The result is whether anything arrives in the next.
    pub(crate) fn go_on(&mut self, slot: u32, sent: &Emissions) -> bool
        requires slot { slot < 2 ^ 32 - 1 }
        requires track { IsTrack slot self.old }
        requires room { 2 ≤ self.old.history.spare }
        ensures next { GoesOn slot (sent_by slot sent.now self.old.from_end) self.old self.new }
        ensures quiet { result ≡ false → self.new.arrived ≡ no_crossing }
    {
        self.pass();
        self.append(slot, sent);
        self.see(slot + 1)
    }

    /// The last slot up to a limit in which, and before which from a slot on, nothing arrives. It is before that slot where something
    /// arrives in it.
    pub(crate) fn nothing_arrives_to(&self, from: u32, limit: u32) -> u32
        requires track { IsTrack from self.now }
        ensures within { result ≤ limit }
        ensures quiet { from ≤ result → ArrivesAfter result self.now }
    {
        before_next(self.next_entry(), self.delay, limit)
    }

    // The first entry that has not arrived before this slot.
    fn next_entry(&self) -> Option<Entry>
        ensures { result ≡ slice_get self.now.history.entries self.now.first }
    {
        self.history.entries().get(self.first).copied()
    }
}

// The last slot before an entry comes, if there is one, and up to a limit.
#[inline]
pub(crate) fn before_next(entry: Option<Entry>, delay: u32, limit: u32) -> u32
    requires delayed { 1 ≤ delay }
    ensures within { result ≤ limit }
    ensures before { IfSome entry (λ e. result < e.slot + delay) }
{
    match entry {
        None => limit,
        Some(e) => {
            let comes = u64::from(e.slot) + u64::from(delay);
            if comes <= u64::from(limit) {
                (comes - 1) as u32
            } else {
                limit
            }
        }
    }
}
