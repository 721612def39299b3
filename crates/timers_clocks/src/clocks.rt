//! `Clocks`, the clock blocks of a core, beside the reference clock.
ghost use Rattle.std.specs.Prelude.{ℕ, ◌≡◌, ◌<◌, ◌≤◌, ◌-◌, ◌↔◌, ◌⊎◌, true, false, Some, None, length, map, IfSome, IfNone, OnOk, OnErr, IsErr, slice_set};
ghost use Rattle.xs_base.specs.declared.numbers.TheConstants.{CLOCK_BLOCKS};
ghost use Rattle.xs_model.specs.Record.{off_clock};
ghost use Rattle.xs_model.specs.Time.{edge_at, on_clock, turned_off, divided_by, started, stopped};
ghost use Rattle.quiet_model.specs.Slots.{IsFirst};
ghost use Rattle.quiet_model.specs.Clocks.{falls_in, has_fallen};
ghost use Rattle.timers_clocks.specs.Timers.{IsClock, no_clocks, clock_at, clocks_after};
ghost use Rattle.timers_clocks.specs.Falls.{FallsEvery, NeverFalls};
ghost use Rattle.timers_clocks.specs.States.{clock_state, clock_of};

use crate::answers::Bad;
use crate::block::{self, Block};
use crate::falls;
use crate::state::ClockState;
use std::marker::Model;
use xs_base::numbers::CLOCK_BLOCKS;
use xs_model::{Clock, Edge};

/// A core's 6 clock blocks, each numbered from 0. One that is on has a divider and may run. Contracts see the list of
/// their `ClockRec`s of `Rattle.xs_model.specs.Record`. See docs/TIME.md.
#[derive(Drop)]
pub struct Clocks {
    blocks: [Block; 6],
}

impl Model for Clocks {
    ghost use Rattle.std.specs.Prelude.{◌≡◌, List, length};
    ghost use Rattle.xs_model.specs.Record.{ClockRec};

    ghost Value = { List ClockRec };

    ghost view = { λ core. core.blocks };

    ghost invariant = { λ core. length core.blocks ≡ 6 };
}

impl Clocks {
    /// The clock blocks at the start: all are off.
    pub fn new() -> Clocks
        ensures off { result ≡ no_clocks }
    {
        Clocks {
            blocks: Default::default(),
        }
    }

    /// Turns clock block `k`, 0 to 5, on: it has the divider 0 and does not run, also where it was on before. See
    /// docs/TIME.md.
    pub fn turn_on(&mut self, k: u8)
        requires { k < CLOCK_BLOCKS }
        ensures after { self.new ≡ slice_set self.old k on_clock }
    {
        self.blocks[k as usize].turn_on();
    }

    /// Turns clock block `k`, 0 to 5, off: it has the divider 0 and does not run. `Bad` comes exactly where it is off, and
    /// then nothing changes. See docs/TIME.md.
    pub fn turn_off(&mut self, k: u8) -> Result<(), Bad>
        requires { k < CLOCK_BLOCKS }
        ensures ok { OnOk result (turned_off (clock_at self.old k) ≡ Some off_clock) }
        ensures err { OnErr result (turned_off (clock_at self.old k) ≡ None) }
        ensures after { self.new ≡ clocks_after self.old k (turned_off (clock_at self.old k)) }
        ensures unchanged { OnErr result (self.new ≡ self.old) }
        ensures bad { IsErr result ↔ ((clock_at self.old k).on ≡ false) }
    {
        self.blocks[k as usize].turn_off()
    }

    /// Sets the divider of clock block `k`, 0 to 5. `Bad` comes exactly where it is off, runs, or `d` is above 255, and
    /// then nothing changes. See docs/TIME.md.
    pub fn set_div(&mut self, k: u8, d: u32) -> Result<(), Bad>
        requires { k < CLOCK_BLOCKS }
        ensures ok { OnOk result (divided_by d (clock_at self.old k) ≡ Some (record (clock_at self.old k) { divider = d })) }
        ensures err { OnErr result (divided_by d (clock_at self.old k) ≡ None) }
        ensures after { self.new ≡ clocks_after self.old k (divided_by d (clock_at self.old k)) }
        ensures unchanged { OnErr result (self.new ≡ self.old) }
        ensures bad { IsErr result ↔ (((clock_at self.old k).on ≡ false) ⊎ ((clock_at self.old k).running ≡ true) ⊎ (255 < d)) }
    {
        self.blocks[k as usize].set_divider(d)
    }

    /// Starts clock block `k`, 0 to 5: it runs, and one that runs goes on to run. Since a core's edges come before the issue
    /// of their slot, a program has edges of it from the next slot on. `Bad` comes exactly where it is off, and then nothing
    /// changes. See docs/TIME.md.
    pub fn start(&mut self, k: u8) -> Result<(), Bad>
        requires { k < CLOCK_BLOCKS }
        ensures ok { OnOk result (started (clock_at self.old k) ≡ Some (record (clock_at self.old k) { running = true })) }
        ensures err { OnErr result (started (clock_at self.old k) ≡ None) }
        ensures after { self.new ≡ clocks_after self.old k (started (clock_at self.old k)) }
        ensures unchanged { OnErr result (self.new ≡ self.old) }
        ensures bad { IsErr result ↔ ((clock_at self.old k).on ≡ false) }
    {
        self.blocks[k as usize].start()
    }

    /// Stops clock block `k`, 0 to 5: it does not run, and so has no edges. `Bad` comes exactly where it is off, and then
    /// nothing changes. See docs/TIME.md.
    pub fn stop(&mut self, k: u8) -> Result<(), Bad>
        requires { k < CLOCK_BLOCKS }
        ensures ok { OnOk result (stopped (clock_at self.old k) ≡ Some (record (clock_at self.old k) { running = false })) }
        ensures err { OnErr result (stopped (clock_at self.old k) ≡ None) }
        ensures after { self.new ≡ clocks_after self.old k (stopped (clock_at self.old k)) }
        ensures unchanged { OnErr result (self.new ≡ self.old) }
        ensures bad { IsErr result ↔ ((clock_at self.old k).on ≡ false) }
    {
        self.blocks[k as usize].stop()
    }

    /// What a clock does in a slot: the reference clock, or clock block 0 to 5. A block that does not run has no edges.
    /// See docs/TIME.md.
    pub fn edge(&self, clock: Clock, slot: u32) -> Edge
        requires { IsClock clock }
        ensures value { result ≡ edge_at self.now clock slot }
        ensures count { length self.now ≡ CLOCK_BLOCKS }
    {
        match clock {
            Clock::Reference => block::edge_in_period(block::REFERENCE_PERIOD, slot),
            Clock::Block(k) => self.blocks[k as usize].edge(slot),
        }
    }

    /// How many falling edges a clock has in slots from `from` to `to` - 1: none where `to` is not above `from`, and none of a
    /// block that does not run. See docs/TIME.md.
    pub fn falls(&self, clock: Clock, from: u32, to: u32) -> u32
        requires { IsClock clock }
        ensures value { result ≡ falls_in self.now clock from (to - from) }
    {
        match self.period(clock) {
            None => 0,
            Some(period) => falls::falls_in(period, from, to),
        }
    }

    /// The slot of the `k`-th falling edge of a clock, counted from 1 in ascending slots from `from` on, if it is below
    /// `bound`, and else `bound`. See docs/TIME.md.
    pub fn fall_at(&self, clock: Clock, from: u32, bound: u32, k: u32) -> u32
        requires clock { IsClock clock }
        requires counted { 0 < k }
        ensures first { IsFirst (has_fallen self.now clock from k) from bound result }
    {
        match self.period(clock) {
            None => bound,
            Some(period) => falls::fall_at(period, from, bound, k),
        }
    }

    // How many slots lie from one falling edge of a clock to the next: `None` exactly where it has none.
    fn period(&self, clock: Clock) -> Option<u32>
        requires { IsClock clock }
        ensures every { IfSome result (λ period. FallsEvery period self.now clock) }
        ensures some { IfSome result (λ period. 1 < period) }
        ensures most { IfSome result (λ period. period ≤ 2040) }
        ensures never { IfNone result (NeverFalls self.now clock) }
    {
        match clock {
            Clock::Reference => Some(block::REFERENCE_PERIOD),
            Clock::Block(k) => self.blocks[k as usize].running_period(),
        }
    }

    /// Whether clock block `k`, 0 to 5, is on.
    pub fn used(&self, k: u8) -> bool
        requires { k < CLOCK_BLOCKS }
        ensures value { result ≡ (clock_at self.now k).on }
    {
        self.blocks[k as usize].is_on()
    }

    /// The divider of clock block `k`, 0 to 5.
    pub fn div(&self, k: u8) -> u32
        requires { k < CLOCK_BLOCKS }
        ensures value { result ≡ (clock_at self.now k).divider }
    {
        self.blocks[k as usize].divider()
    }

    /// What a snapshot keeps of the clock blocks, by their numbers. It takes no memory. See docs/SNAPSHOTS.md.
    pub fn state(&self) -> [ClockState; 6]
        ensures value { result ≡ map clock_state self.now }
    {
        self.blocks.each_ref().map(Block::state)
    }

    /// The clock blocks that a snapshot keeps, by their numbers. It takes no memory. See docs/SNAPSHOTS.md.
    pub fn of_state(clocks: &[ClockState; 6]) -> Clocks
        ensures value { result ≡ map clock_of clocks.now }
    {
        Clocks {
            blocks: clocks.map(Block::of_state),
        }
    }
}
