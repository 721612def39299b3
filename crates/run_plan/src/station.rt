//! `Station`, one node of a system, with its pins and the arcs that come to it.
ghost use Rattle.std.specs.Prelude.{◌≡◌, ◌-◌, ◌^◌, ◌<◌, true, length};
ghost use Rattle.node_seats.specs.Seats.{HasEventRoom};
ghost use Rattle.run_plan.specs.Stations.{IsStation, StationSteps};
ghost use Rattle.run_plan.specs.Quiet.{MaySkip, StationSkips};

use crate::inbound::Inbound;
use crate::track::Track;
use node_seats::{Pins, Seat};

/// A node at work, with its pins and the arcs that come to it.
#[derive(Drop)]
pub(crate) struct Station {
    pub(crate) seat: Seat,
    pub(crate) pins: Pins,
    pub(crate) incoming: Inbound,
    // Whether something arrives at it in this slot.
    pub(crate) due: bool,
}

impl Station {
    /// One slot of the node, with what comes to it: what arrives by its arcs, and what its pins show from outside. Its events are kept,
    /// in room that was made for them. Then it is looked how long the node is quiet, so that its quiet slots are short.
    pub(crate) fn step(&mut self, tracks: &[Track], slot: u32)
        requires slot { slot < 2 ^ 32 - 1 }
        requires station { IsStation slot (length tracks.now) self.old }
        requires room { HasEventRoom self.old.seat }
        ensures steps { StationSteps slot tracks.now self.old self.new }
    {
        if self.due {
            self.step_due(tracks, slot);
        } else {
            let changed = self.pins.look(slot);
            let nothing = self.incoming.nothing();
            self.seat
                .step(slot, false, nothing, changed, self.pins.view());
            self.seat.find_rest(slot + 1);
        }
    }

    // One slot of a node that is due. In most slots a node is not, and its links are not looked at.
    #[cold]
    #[inline(never)]
    fn step_due(&mut self, tracks: &[Track], slot: u32)
        requires slot { slot < 2 ^ 32 - 1 }
        requires station { IsStation slot (length tracks.now) self.old }
        requires room { HasEventRoom self.old.seat }
        requires due { self.old.due ≡ true }
        ensures steps { StationSteps slot tracks.now self.old self.new }
    {
        let arrivals = self.incoming.arrivals(tracks);
        let changed = self.pins.look(slot);
        self.seat
            .step(slot, true, &arrivals, changed, self.pins.view());
        self.seat.find_rest(slot + 1);
        self.due = false;
    }

    /// Goes over the slots from one on and before another at once: nothing arrives in them, and the node is quiet. What is known of later
    /// quiet slots is known still.
    pub(crate) fn skip(&mut self, from: u32, to: u32)
        requires some { from < to }
        requires quiet { MaySkip from to self.old }
        ensures skips { StationSkips from to self.old self.new }
    {
        self.pins.look(to - 1);
        self.seat.skip(from, to, self.pins.view());
    }
}
