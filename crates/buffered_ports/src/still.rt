//! Ports that are still: when the next transfer of one of them begins, and slots in which they only count.
ghost use Rattle.std.specs.Prelude.{ℕ, ◌≡◌, ◌-◌, ◌<◌, ◌≤◌, true, false, length, slice_set};
ghost use Rattle.xs_base.specs.Numbers.{Slot, PortNumber};
ghost use Rattle.xs_base.specs.declared.numbers.TheConstants.{PORTS};
ghost use Rattle.quiet_model.specs.Slots.{IsFirst};
ghost use Rattle.quiet_model.specs.Clocks.{port_counted, ports_counted};
ghost use Rattle.quiet_model.specs.Still.{ports_are_still};
ghost use Rattle.quiet_model.specs.Stirs.{ports_stir};
ghost use Rattle.single_port.specs.Keeps.{ServesAs};
ghost use Rattle.buffered_ports.specs.Asks.{port_at};
ghost use Rattle.buffered_ports.specs.Counts.{stirs_at};

use crate::marks::are_still;
use crate::ports::Ports;
use bit_masks::{lowest, without};
use timers_clocks::Clocks;
use xs_base::numbers::PORTS;

impl Ports {
    /// Whether all ports are still: each that is on has direction output, and no bits in its shift register. It costs next to
    /// nothing. See docs/PORTS.md.
    #[inline]
    pub fn still(&self) -> bool
        ensures value { result ≡ ports_are_still self.now }
        ensures count { length self.now ≡ PORTS }
    {
        are_still(self.moving)
    }

    /// The first slot of `from` to `bound` - 1 at which the next transfer of a port begins, where all are still at `from`, and
    /// else `bound`: at a falling edge of its clock, where its transfer register is full, with its time where it has one. It
    /// costs next to nothing where no port is on. See docs/PORTS.md.
    pub fn next_fall(&self, clocks: &Clocks, from: u32, bound: u32) -> u32
        requires still { ports_are_still self.now ≡ true }
        ensures first { IsFirst (λ slot. ports_stir clocks.now slot (ports_counted clocks.now from (slot - from) self.now)) from bound result }
    {
        // The ports that are on and were not asked yet.
        let mut rest = self.ports_on();
        let mut first = bound;
        while rest != 0 {
            let p = lowest(rest);
            first = self.next_fall_of(p, clocks, from, first);
            rest = without(rest, p);
        }
        first
    }

    // The same of port `p` alone, which is on.
    fn next_fall_of(&self, p: u8, clocks: &Clocks, from: u32, bound: u32) -> u32
        requires port { p < PORTS }
        requires on { (port_at self.now p).on ≡ true }
        ensures { IsFirst (stirs_at clocks.now from (port_at self.now p)) from bound result }
    {
        match self.ports[p as usize].falls_to_go() {
            None => bound,
            Some(k) => clocks.fall_at(self.clock(p), from, bound, k),
        }
    }

    /// Passes the slots from `from` to `to` - 1, in which all ports are still and no transfer begins: the counter of each port
    /// that is on rises by the falling edges of its clock in them. See docs/PORTS.md.
    pub fn pass(&mut self, clocks: &Clocks, from: u32, to: u32)
        requires still { ports_are_still self.old ≡ true }
        requires quiet { (slot : Slot) → from ≤ slot → slot < to → ports_stir clocks.now slot (ports_counted clocks.now from (slot - from) self.old) ≡ false }
        ensures value { self.new ≡ ports_counted clocks.now from (to - from) self.old }
        ensures serves { (p : PortNumber) → ServesAs (port_at self.old p) (port_at self.new p) }
    {
        // The ports that are on and did not count yet.
        let mut rest = self.ports_on();
        while rest != 0 {
            let p = lowest(rest);
            self.pass_port(p, clocks, from, to);
            rest = without(rest, p);
        }
    }

    // The counter of port `p`, which is on, rises by the falling edges of these slots.
    fn pass_port(&mut self, p: u8, clocks: &Clocks, from: u32, to: u32)
        requires port { p < PORTS }
        requires on { (port_at self.old p).on ≡ true }
        ensures { self.new ≡ slice_set self.old p (port_counted clocks.now from (to - from) (port_at self.old p)) }
    {
        let falls = clocks.falls(self.clock(p), from, to);
        self.ports[p as usize].counts(falls);
    }
}
