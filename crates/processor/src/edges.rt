//! The edges of the ports' clocks in a slot. See docs/PORTS.md.
ghost use Rattle.std.specs.Prelude.{ℕ, ◌≡◌, ◌≤◌, ◌+◌, false, List, length};
ghost use Rattle.xs_base.specs.Numbers.{Word};
ghost use Rattle.xs_base.specs.declared.numbers.TheConstants.{EVENT_ROOM, PORTS};
ghost use Rattle.xs_model.specs.Outside.{LevelsFit};
ghost use Rattle.xs_model.specs.Ports.{edges_from, levels_of};
ghost use Rattle.buffered_ports.specs.Keeps.{HighAre};
ghost use Rattle.processor.specs.Knows.{StaysKnown};
ghost use Rattle.processor.specs.Issue.{and_happened};

use crate::processor::Processor;
use core_units::Units;
use trace_lines::Emissions;
use xs_model::PinView;

impl Processor {
    /// The edges of a slot at all ports, whose pins show these levels from outside. `high` has the strobes that were high
    /// at the end of the slot before: bit p for port p. What happens is put after the events of `out`.
    pub fn edges(&mut self, slot: u32, pins: &PinView, high: u32, out: &mut Emissions)
        requires room { length out.old.events + PORTS ≤ EVENT_ROOM }
        requires levels { LevelsFit pins.now.level }
        ensures ports { (before : List Word) → HighAre high self.old.ports before →
            self.new ≡ record self.old { ports = (edges_from slot self.old.clocks before 0 self.old.ports pins.now.level).ports } }
        ensures events { (before : List Word) → HighAre high self.old.ports before →
            out.new ≡ and_happened out.old slot (edges_from slot self.old.clocks before 0 self.old.ports pins.now.level).happened }
        ensures room { length out.new.events ≤ length out.old.events + PORTS }
    {
        if edges(&mut self.units, slot, pins, high, out) {
            self.able = None;
        }
    }

    /// The strobes that are high, whose pins show these levels from outside: bit p for port p.
    pub fn high(&self, pins: &PinView) -> u32
        ensures value { HighAre result self.now.ports (levels_of self.now.ports pins.now.level) }
    {
        high(&self.units, pins)
    }

    /// Whether a port has a strobe. Where none has, `high` says nothing, and any mask does for it.
    #[inline]
    pub fn has_strobe(&self) -> bool
        ensures none { result ≡ false → (mask : ℕ) (levels : List Word) → HighAre mask self.now.ports levels }
    {
        has_strobe(&self.units)
    }
}

// The edges of a slot, and whether a thread may be able by them that was not, or not able that was.
#[inline]
fn edges(units: &mut Units, slot: u32, pins: &PinView, high: u32, out: &mut Emissions) -> bool
    requires room { length out.old.events + PORTS ≤ EVENT_ROOM }
    requires levels { LevelsFit pins.now.level }
    ensures ports { (before : List Word) → HighAre high units.old.ports before →
        units.new ≡ record units.old { ports = (edges_from slot units.old.clocks before 0 units.old.ports pins.now.level).ports } }
    ensures events { (before : List Word) → HighAre high units.old.ports before →
        out.new ≡ and_happened out.old slot (edges_from slot units.old.clocks before 0 units.old.ports pins.now.level).happened }
    ensures room { length out.new.events ≤ length out.old.events + PORTS }
    ensures known { result ≡ false → StaysKnown units.old units.new }
{
    units.ports.edges(&units.clocks, slot, pins, high, out)
}

// The strobes that are high.
#[inline]
fn high(units: &Units, pins: &PinView) -> u32
    ensures { HighAre result units.now.ports (levels_of units.now.ports pins.now.level) }
{
    units.ports.high(pins)
}

// Whether a port has a strobe.
#[inline]
fn has_strobe(units: &Units) -> bool
    ensures { result ≡ false → (mask : ℕ) (levels : List Word) → HighAre mask units.now.ports levels }
{
    units.ports.has_strobe()
}
