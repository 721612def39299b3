//! `Port`, one port: what it keeps, and what it tells.
ghost use Rattle.std.specs.Prelude.{IfSome, None, ◌≡◌, ◌<◌, ◌≤◌, ◌^◌, ◌||◌, ◌&&◌, not, true, false, is_some, nat_lt, length, if◌then◌else◌};
ghost use Rattle.xs_model.specs.Record.{off_port};
ghost use Rattle.xs_model.specs.Ports.{level_of};
ghost use Rattle.xs_model.specs.PortActions.{on_port, has_left, is_idle};
ghost use Rattle.xs_model.specs.Choices.{port_is_ready};
ghost use Rattle.single_port.specs.Asks.{IsClock, IsStrobe};
ghost use Rattle.single_port.specs.Keeps.{IsPort, IsPlain};

use crate::state::Condition;
use crate::transfer::TransferWord;
use port_shift::Shift;
use std::marker::Model;
use xs_model::Clock;

/// One port. Contracts see it as a `PortOf` of `Rattle.single_port.specs.Keeps`: its width, which its shift register
/// knows, and the rest as a `PortRec`. See docs/PORTS.md.
#[derive(Drop)]
pub struct Port {
    pub(crate) on: bool,
    pub(crate) output: bool,
    pub(crate) buffered: bool,
    pub(crate) held: bool,
    pub(crate) condition: Condition,
    pub(crate) clock: Clock,
    pub(crate) counter: u16,
    pub(crate) sample_stamp: u16,
    pub(crate) stamp: u16,
    pub(crate) time: Option<u16>,
    pub(crate) transfer_width: u32,
    pub(crate) wanted: u32,
    pub(crate) value: u32,
    pub(crate) shift: Shift,
    pub(crate) transfer: Option<TransferWord>,
    pub(crate) strobe: Option<u8>,
    pub(crate) driven: Option<u32>,
}

impl Model for Port {
    ghost use Rattle.single_port.specs.Keeps.{PortOf, IsPort};

    ghost Value = { PortOf };

    ghost use Rattle.single_port.specs.Inside.{port_in, port_of_width};

    ghost view = { port_of_width };

    ghost invariant = { λ c. IsPort c.shift.width (port_in c) };
}

impl Default for Port {
    ghost use Rattle.std.specs.Prelude.{◌≡◌};
    ghost use Rattle.xs_model.specs.Record.{off_port};

    ghost is_default = { λ port. port ≡ record { width = 1; port = off_port } };

    fn default() -> Self {
        Port {
            on: false,
            output: false,
            buffered: false,
            held: false,
            condition: Condition::None,
            clock: Clock::Reference,
            counter: 0,
            sample_stamp: 0,
            stamp: 0,
            time: None,
            transfer_width: 0,
            wanted: 0,
            value: 0,
            shift: Shift::new(1),
            transfer: None,
            strobe: None,
            driven: None,
        }
    }
}

impl Port {
    /// A port of this width that was just turned on.
    pub(crate) fn just_on(width: u32) -> Port
        requires some { 0 < width }
        requires most { width ≤ 32 }
        ensures { result ≡ record { width = width; port = on_port width } }
    {
        Port {
            on: true,
            transfer_width: width,
            wanted: width,
            shift: Shift::new(width),
            ..Port::default()
        }
    }

    /// Whether it is on.
    #[inline]
    pub fn is_on(&self) -> bool
        ensures on { result ≡ self.now.port.on }
    {
        self.on
    }

    /// What its pins show, which show this from outside: what it drives, if it does.
    #[inline]
    pub fn level(&self, outside: u32) -> u32
        ensures value { result ≡ level_of self.now.port.driven outside }
        ensures fits { outside < 2 ^ self.now.width → result < 2 ^ self.now.width }
    {
        match self.driven {
            Some(driven) => driven,
            None => outside,
        }
    }

    /// What it drives, None exactly where it drives nothing.
    #[inline]
    pub fn driven(&self) -> Option<u32>
        ensures value { result ≡ self.now.port.driven }
        ensures fits { IfSome result (λ value. value < 2 ^ self.now.width) }
        ensures off { self.now.port.on ≡ false → result ≡ None }
    {
        self.driven
    }

    /// The clock by whose edges it goes.
    #[inline]
    pub fn clock(&self) -> Clock
        ensures value { result ≡ self.now.port.clock }
        ensures is { IsClock result }
    {
        self.clock
    }

    /// The number of the port that is its strobe, 0 to 28: `None` exactly where there is none.
    #[inline]
    pub fn strobe(&self) -> Option<u8>
        ensures value { result ≡ self.now.port.strobe }
        ensures is { IsStrobe result }
    {
        self.strobe
    }

    /// How many bits a transfer has: 0 exactly where it is off.
    #[inline]
    pub fn transfer_width(&self) -> u32
        ensures value { result ≡ self.now.port.transfer_width }
        ensures most { result ≤ 32 }
        ensures some { self.now.port.on ≡ true → 0 < result }
        ensures off { self.now.port.on ≡ false → result ≡ 0 }
    {
        self.transfer_width
    }

    /// Whether it takes each level from outside at the rising edges of the reference clock, and at the falling ones only
    /// counts.
    pub fn is_plain(&self) -> bool
        ensures plain { result ≡ true → IsPlain self.now.port }
        ensures all { IsPlain self.now.port → result ≡ true }
    {
        if !self.on || self.output || self.buffered || self.held {
            return false;
        }
        if self.time.is_some() || self.strobe.is_some() || self.driven.is_some() {
            return false;
        }
        match (self.condition, self.clock) {
            (Condition::None, Clock::Reference) => true,
            _ => false,
        }
    }

    /// Whether its transfer register is full.
    #[inline]
    pub fn is_full(&self) -> bool
        ensures { result ≡ is_some self.now.port.transfer }
    {
        self.transfer.is_some()
    }

    /// Whether its shift register holds bits.
    #[inline]
    pub(crate) fn has_bits(&self) -> bool
        ensures { result ≡ nat_lt 0 (length self.now.port.shift) }
    {
        self.shift.bits() > 0
    }

    /// Whether its transfer register is not full where it was, or its shift register holds no bits where it did, or the
    /// other way round.
    #[inline]
    pub(crate) fn serves_otherwise(&self, was_full: bool, had_bits: bool) -> bool
        ensures full { result ≡ false → is_some self.now.port.transfer ≡ was_full }
        ensures bits { result ≡ false → nat_lt 0 (length self.now.port.shift) ≡ had_bits }
    {
        self.is_full() != was_full || self.has_bits() != had_bits
    }

    /// Whether a transfer came in that can be taken.
    #[inline]
    pub fn is_ready(&self) -> bool
        ensures { result ≡ port_is_ready self.now.port }
    {
        !self.output && self.transfer.is_some()
    }

    /// Whether nothing waits to go out.
    #[inline]
    pub(crate) fn is_empty(&self) -> bool
        ensures { result ≡ not (has_left self.now.port) }
    {
        !(self.transfer.is_some() || self.shift.bits() > 0)
    }

    /// Whether its direction is not output, or nothing waits to go out.
    #[inline]
    pub fn is_idle(&self) -> bool
        ensures { result ≡ is_idle self.now.port }
    {
        !(self.output && (self.transfer.is_some() || self.shift.bits() > 0))
    }
}
