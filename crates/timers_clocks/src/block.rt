//! `Block`, one clock block, and the edges of a clock.
ghost use Rattle.std.specs.Prelude.{◌≡◌, ◌<◌, ◌≤◌, ◌↔◌, ◌⊎◌, true, false, Some, None, is_some, IfSome, OnOk, OnErr, IsErr};
ghost use Rattle.xs_model.specs.Record.{off_clock};
ghost use Rattle.xs_model.specs.Time.{edge_in_period, period, block_edge, on_clock, turned_off, divided_by, started, stopped};
ghost use Rattle.timers_clocks.specs.Timers.{clock_after};
ghost use Rattle.timers_clocks.specs.States.{clock_state, clock_of};

use crate::answers::Bad;
use crate::state::ClockState;
use std::marker::Model;
use xs_model::Edge;

/// Slots from one rise of the reference clock to the next.
pub(crate) const REFERENCE_PERIOD: u32 = 4;

/// What a clock with a period of so many slots does in a slot.
pub(crate) fn edge_in_period(period: u32, slot: u32) -> Edge
    requires { 0 < period }
    ensures { result ≡ edge_in_period period slot }
{
    let phase = slot % period;
    if phase == 0 {
        Edge::Rise
    } else if phase == period / 2 {
        Edge::Fall
    } else {
        Edge::None
    }
}

/// A clock block: whether it is on, its divider, and whether it runs. Contracts see it as a `ClockRec` of
/// `Rattle.xs_model.specs.Record`.
#[derive(Drop)]
pub(crate) struct Block {
    on: bool,
    divider: u8,
    running: bool,
}

impl Model for Block {
    ghost use Rattle.xs_model.specs.Record.{ClockRec};

    ghost Value = { ClockRec };

    ghost view = { λ block. record { on = block.on; divider = block.divider; running = block.running } };
}

impl Default for Block {
    ghost use Rattle.std.specs.Prelude.{◌≡◌};
    ghost use Rattle.xs_model.specs.Record.{off_clock};

    ghost is_default = { λ block. block ≡ off_clock };

    fn default() -> Self {
        Block {
            on: false,
            divider: 0,
            running: false,
        }
    }
}

impl Block {
    /// Turns it on, with the divider 0 and not running.
    pub(crate) fn turn_on(&mut self)
        ensures { self.new ≡ on_clock }
    {
        *self = Block {
            on: true,
            ..Block::default()
        };
    }

    /// Turns it off: refused exactly where it is off.
    pub(crate) fn turn_off(&mut self) -> Result<(), Bad>
        ensures ok { OnOk result (turned_off self.old ≡ Some off_clock) }
        ensures err { OnErr result (turned_off self.old ≡ None) }
        ensures after { self.new ≡ clock_after self.old (turned_off self.old) }
        ensures bad { IsErr result ↔ (self.old.on ≡ false) }
    {
        if !self.on {
            return Err(Bad);
        }
        *self = Block::default();
        Ok(())
    }

    /// Sets its divider: refused exactly where it is off, runs, or the divider is above 255.
    pub(crate) fn set_divider(&mut self, divider: u32) -> Result<(), Bad>
        ensures ok { OnOk result (divided_by divider self.old ≡ Some (record self.old { divider = divider })) }
        ensures err { OnErr result (divided_by divider self.old ≡ None) }
        ensures after { self.new ≡ clock_after self.old (divided_by divider self.old) }
        ensures bad { IsErr result ↔ ((self.old.on ≡ false) ⊎ (self.old.running ≡ true) ⊎ (255 < divider)) }
    {
        if !self.on || self.running || divider > 255 {
            return Err(Bad);
        }
        self.divider = divider as u8;
        Ok(())
    }

    /// Starts it: refused exactly where it is off.
    pub(crate) fn start(&mut self) -> Result<(), Bad>
        ensures ok { OnOk result (started self.old ≡ Some (record self.old { running = true })) }
        ensures err { OnErr result (started self.old ≡ None) }
        ensures after { self.new ≡ clock_after self.old (started self.old) }
        ensures bad { IsErr result ↔ (self.old.on ≡ false) }
    {
        if !self.on {
            return Err(Bad);
        }
        self.running = true;
        Ok(())
    }

    /// Stops it: refused exactly where it is off.
    pub(crate) fn stop(&mut self) -> Result<(), Bad>
        ensures ok { OnOk result (stopped self.old ≡ Some (record self.old { running = false })) }
        ensures err { OnErr result (stopped self.old ≡ None) }
        ensures after { self.new ≡ clock_after self.old (stopped self.old) }
        ensures bad { IsErr result ↔ (self.old.on ≡ false) }
    {
        if !self.on {
            return Err(Bad);
        }
        self.running = false;
        Ok(())
    }

    /// What it does in a slot, which while it does not run is nothing.
    pub(crate) fn edge(&self, slot: u32) -> Edge
        ensures { result ≡ block_edge self.now slot }
    {
        if self.running {
            edge_in_period(self.period(), slot)
        } else {
            Edge::None
        }
    }

    /// Slots from one falling edge to the next: `None` exactly where it does not run.
    pub(crate) fn running_period(&self) -> Option<u32>
        ensures runs { is_some result ≡ self.now.running }
        ensures value { IfSome result (λ p. p ≡ period self.now.divider) }
        ensures some { IfSome result (λ p. 1 < p) }
        ensures most { IfSome result (λ p. p ≤ 2040) }
    {
        if !self.running {
            return None;
        }
        Some(self.period())
    }

    /// Slots from one rise to the next while it runs.
    fn period(&self) -> u32
        ensures value { result ≡ period self.now.divider }
        ensures some { 1 < result }
        ensures most { result ≤ 2040 }
    {
        if self.divider == 0 {
            REFERENCE_PERIOD
        } else {
            8 * u32::from(self.divider)
        }
    }

    pub(crate) fn is_on(&self) -> bool
        ensures { result ≡ self.now.on }
    {
        self.on
    }

    pub(crate) fn divider(&self) -> u32
        ensures { result ≡ self.now.divider }
    {
        u32::from(self.divider)
    }

    /// What a snapshot keeps of it.
    pub(crate) fn state(&self) -> ClockState
        ensures { result ≡ clock_state self.now }
    {
        ClockState {
            on: self.on,
            running: self.running,
            div: self.divider,
        }
    }

    /// The clock block that a snapshot keeps.
    pub(crate) fn of_state(state: ClockState) -> Block
        ensures { result ≡ clock_of state }
    {
        Block {
            on: state.on,
            divider: state.div,
            running: state.running,
        }
    }
}
