//! `Emissions`, what one slot of a node gives.
ghost use Rattle.std.specs.Prelude.{◌≡◌, ◌<◌, ◌≤◌, [], ◌∷◌, ◌++◌, length, Some, None, true, false, slice_index_or, slice_set, All};
ghost use Rattle.xs_base.specs.declared.numbers.TheConstants.{EVENT_ROOM};
ghost use Rattle.xs_model.specs.Outside.{emitted_events};
ghost use Rattle.xs_model.specs.Events.{IsWithinCounts};

use arrayvec::ArrayVec;
use std::marker::Model;
use xs_base::Token;
use xs_base::numbers::EVENT_ROOM;
use xs_model::Event;

/// What one slot of a node gives: at most `EVENT_ROOM` events in their order, and for each link end 0 to 7 at most one token
/// and one credit that leave by it. Contracts see it as an `Emitted` of `Rattle.xs_model.specs.Outside`. It takes
/// no memory beyond its own. See docs/MACHINE.md.
#[derive(Drop)]
pub struct Emissions {
    events: ArrayVec<Event, EVENT_ROOM>,
    tokens: [Option<Token>; 8],
    credits: [bool; 8],
    // Whether a token or a credit was set since all were cleared.
    links_used: bool,
}

impl Model for Emissions {
    ghost use Rattle.xs_model.specs.Outside.{Emitted};

    ghost Value = { Emitted };

    ghost use Rattle.trace_lines.specs.Places.{emitted_of, IsWellMarked};

    ghost view = { emitted_of };

    ghost invariant = { IsWellMarked };
}

impl Emissions {
    /// Nothing emitted yet.
    pub fn new() -> Emissions
        ensures { result ≡ emitted_events [] }
    {
        Emissions {
            events: ArrayVec::new(),
            tokens: [None; 8],
            credits: [false; 8],
            links_used: false,
        }
    }

    /// Takes back all that was emitted, before the next slot. It writes link ends only where some were used.
    pub fn clear(&mut self)
        ensures { self.new ≡ emitted_events [] }
    {
        self.events.clear();
        if self.links_used {
            self.tokens = [None; 8];
            self.credits = [false; 8];
            self.links_used = false;
        }
    }

    /// Puts an event after those of this slot, of which there are fewer than there is room for, `EVENT_ROOM`.
    pub fn add_event(&mut self, e: Event)
        requires room { length self.old.events < EVENT_ROOM }
        requires within { IsWithinCounts e }
        ensures { self.new ≡ record self.old { events = self.old.events ++ e ∷ [] } }
    {
        self.events.push(e);
    }

    /// Says that this token leaves by this link end, in place of one that was set before.
    pub fn set_token(&mut self, end: u8, t: Token)
        requires { end < 8 }
        ensures { self.new ≡ record self.old { tokens = slice_set self.old.tokens end (Some t) } }
    {
        self.tokens[end as usize] = Some(t);
        self.links_used = true;
    }

    /// Says that a credit leaves by this link end.
    pub fn set_credit(&mut self, end: u8)
        requires { end < 8 }
        ensures { self.new ≡ record self.old { credits = slice_set self.old.credits end true } }
    {
        self.credits[end as usize] = true;
        self.links_used = true;
    }

    /// The events of this slot, in order.
    pub fn events(&self) -> &[Event]
        ensures value { result.now ≡ self.now.events }
        ensures within { All IsWithinCounts result.now }
        ensures bound { length result.now ≤ EVENT_ROOM }
    {
        self.events.as_slice()
    }

    /// The token that leaves by this link end, or `None` where none was set.
    pub fn token(&self, end: u8) -> Option<Token>
        requires { end < 8 }
        ensures { result ≡ slice_index_or self.now.tokens end None }
    {
        self.tokens[end as usize]
    }

    /// Whether a credit leaves by this link end.
    pub fn credit(&self, end: u8) -> bool
        requires { end < 8 }
        ensures { result ≡ slice_index_or self.now.credits end false }
    {
        self.credits[end as usize]
    }
}
