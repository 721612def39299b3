//! The ports of a core in slots in which they only count. See docs/QUIET_SLOTS.md.
ghost use Rattle.std.specs.Prelude.{◌≡◌, ◌-◌, ◌^◌, ◌<◌, true, IfSome};
ghost use Rattle.xs_base.specs.declared.numbers.TheConstants.{PORTS};
ghost use Rattle.xs_base.specs.Ids.{port_width};
ghost use Rattle.xs_model.specs.Record.{port_of};
ghost use Rattle.quiet_model.specs.Slots.{IsFirst, NoneBefore};
ghost use Rattle.quiet_model.specs.Clocks.{ports_counted};
ghost use Rattle.quiet_model.specs.Still.{ports_are_still};
ghost use Rattle.quiet_model.specs.Stirs.{ports_stir};
ghost use Rattle.quiet_laws.specs.Quiet.{core_counted};
ghost use Rattle.processor.specs.Knows.{StaysKnown};

use crate::processor::Processor;
use core_units::Units;

impl Processor {
    /// Whether each port that is on has direction output, and no bits in its shift register.
    #[inline]
    pub fn ports_are_still(&self) -> bool
        ensures value { result ≡ ports_are_still self.now.ports }
    {
        are_still(&self.units)
    }

    /// The first slot of `from` to `bound - 1` in which a port's next transfer begins, when until then ports only count, and `bound`
    /// where that is none of them. The ports are still.
    pub fn next_fall(&self, from: u32, bound: u32) -> u32
        requires still { ports_are_still self.now.ports ≡ true }
        ensures first { IsFirst (λ slot. ports_stir self.now.clocks slot (ports_counted self.now.clocks from (slot - from) self.now.ports)) from bound result }
    {
        next_fall(&self.units, from, bound)
    }

    /// What port `port`, 0 to 28, drives, None exactly where it drives nothing.
    #[inline]
    pub fn driven(&self, port: u8) -> Option<u32>
        requires port { port < PORTS }
        ensures value { result ≡ (port_of self.now port).driven }
        ensures fits { IfSome result (λ value. value < 2 ^ port_width port) }
    {
        driven(&self.units, port)
    }

    /// The counters of the ports rise as they do in the slots from `from` to `to - 1`. The ports are still, and in none of these
    /// slots a port's next transfer begins.
    pub fn pass(&mut self, from: u32, to: u32)
        requires still { ports_are_still self.old.ports ≡ true }
        requires none { NoneBefore (λ slot. ports_stir self.old.clocks slot (ports_counted self.old.clocks from (slot - from) self.old.ports)) from to }
        ensures counted { self.new ≡ core_counted from (to - from) self.old }
    {
        pass(&mut self.units, from, to);
    }
}

#[inline]
fn driven(units: &Units, port: u8) -> Option<u32>
    requires { port < PORTS }
    ensures value { result ≡ (port_of units.now port).driven }
    ensures fits { IfSome result (λ value. value < 2 ^ port_width port) }
{
    units.ports.driven(port)
}

#[inline]
fn are_still(units: &Units) -> bool
    ensures { result ≡ ports_are_still units.now.ports }
{
    units.ports.still()
}

fn next_fall(units: &Units, from: u32, bound: u32) -> u32
    requires still { ports_are_still units.now.ports ≡ true }
    ensures { IsFirst (λ slot. ports_stir units.now.clocks slot (ports_counted units.now.clocks from (slot - from) units.now.ports)) from bound result }
{
    units.ports.next_fall(&units.clocks, from, bound)
}

// The counters of the ports rise. Which threads are able stays known.
fn pass(units: &mut Units, from: u32, to: u32)
    requires still { ports_are_still units.old.ports ≡ true }
    requires none { NoneBefore (λ slot. ports_stir units.old.clocks slot (ports_counted units.old.clocks from (slot - from) units.old.ports)) from to }
    ensures counted { units.new ≡ core_counted from (to - from) units.old }
    ensures known { StaysKnown units.old units.new }
{
    units.ports.pass(&units.clocks, from, to);
}
