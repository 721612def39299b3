//! `NodeEvents`, a node's events of a run.
ghost use Rattle.std.specs.Prelude.{ℕ, ◌≡◌, ◌+◌, ◌-◌, ◌^◌, ◌<◌, ◌≤◌, List, [], ◌∷◌, ◌++◌, length, IsOk, OnOk, OnErr, All};
ghost use Rattle.xs_model.specs.declared.event.Event.{Event};
ghost use Rattle.xs_model.specs.Events.{IsWithinCounts};
ghost use Rattle.xs_model.specs.FirstEvents.{kept_at_most};
ghost use Rattle.trace_lines.specs.Kept.{Keeps, HasRoom};

use std::alloc::{AllocError, Global};
use std::marker::Model;
use xs_model::Event;

// How many events of a node are kept; see docs/OUTPUT.md.
const KEPT_AT_MOST: usize = 262_144;

/// A node's events of a run: the first 262,144 in their order, and how many more there were. Contracts see it as a
/// `KeptEvents` of `Rattle.trace_lines.specs.Kept`. See docs/OUTPUT.md.
#[derive(Drop)]
pub struct NodeEvents {
    events: Vec<Event>,
    more: u64,
    // How many events can be added with no memory taken; those past the last that is kept take none.
    spare: usize,
}

impl Model for NodeEvents {
    ghost use Rattle.trace_lines.specs.Kept.{KeptEvents};

    ghost Value = { KeptEvents };

    ghost use Rattle.trace_lines.specs.Room.{kept_in, FitsItsRoom};

    ghost view = { kept_in };

    ghost invariant = { FitsItsRoom };
}

impl NodeEvents {
    /// No events yet. It takes no memory.
    pub fn new(alloc: Global) -> NodeEvents
        ensures keeps { Keeps result [] }
        ensures spare { result.spare ≡ 0 }
    {
        NodeEvents {
            events: Vec::new(alloc),
            more: 0,
            spare: 0,
        }
    }

    /// The events that are kept, in order: the first 262,144 of those that were added.
    pub fn events(&self) -> &[Event]
        ensures value { result.now ≡ self.now.events }
        ensures within { All IsWithinCounts result.now }
        ensures bound { length result.now ≤ kept_at_most }
    {
        self.events.as_slice()
    }

    /// How many events there were after those that are kept.
    pub fn more(&self) -> u64
        ensures { result ≡ self.now.more }
    {
        self.more
    }

    /// Makes room for this many events, so that `add` can take them with no memory: where fewer than 262,144 can still be
    /// kept, for those, since what is only counted takes none. It costs nothing where there is room already, or once
    /// 262,144 are kept. The error is want of memory, and changes nothing.
    pub fn reserve(&mut self, n: usize) -> Result<(), AllocError>
        ensures room { OnOk result (n ≤ self.new.spare) }
        ensures events { self.new.events ≡ self.old.events }
        ensures more { self.new.more ≡ self.old.more }
        ensures spare { self.old.spare ≤ self.new.spare }
        ensures enough { n ≤ self.old.spare → IsOk result }
        ensures all_kept { length self.old.events ≡ kept_at_most → IsOk result }
        ensures err { OnErr result (self.new ≡ self.old) }
    {
        if n <= self.spare {
            return Ok(());
        }
        let still_kept = KEPT_AT_MOST - self.events.len();
        self.events.reserve(n.min(still_kept))?;
        self.spare = n.max(self.events.capacity() - self.events.len());
        Ok(())
    }

    /// Adds an event after the others: keeps it while fewer than 262,144 are kept, and counts it otherwise. It takes
    /// no memory, since `reserve` made room.
    pub fn add(&mut self, e: Event)
        requires room { HasRoom 1 self.old }
        requires count { self.old.more < 2 ^ 64 - 1 }
        requires within { IsWithinCounts e }
        ensures keeps { (all : List Event) → Keeps self.old all → Keeps self.new (all ++ e ∷ []) }
        ensures room { (n : ℕ) → HasRoom (n + 1) self.old → HasRoom n self.new }
        ensures spare { self.old.spare ≤ self.new.spare + 1 }
        ensures more { self.new.more ≤ self.old.more + 1 }
    {
        if self.events.len() < KEPT_AT_MOST {
            // It cannot fail: the room is there.
            let _ = self.events.push(e);
            self.spare -= 1;
        } else {
            self.more += 1;
        }
    }
}
