//! A port that is still: it does nothing but count the falling edges of its clock, until its next transfer begins.
ghost use Rattle.std.specs.Prelude.{◌≡◌, Some, None, IfSome, IfNone};
ghost use Rattle.quiet_model.specs.Still.{port_is_still};
ghost use Rattle.single_port.specs.Begins.{IsDueAt, BeginsAt, counted};
ghost use Rattle.single_port.specs.Keeps.{ServesAs, KeepsRole, IsPlain};

use crate::port::Port;

impl Port {
    /// Whether it is off, or its direction is output and its shift register holds no bits.
    #[inline]
    pub fn is_still(&self) -> bool
        ensures { result ≡ port_is_still self.now.port }
    {
        !self.on || (self.output && self.shift.bits() == 0)
    }

    /// With which falling edge of its clock from now on the next transfer begins, where it is still until then: 1, or 1 to
    /// 65,536 where the transfer waits for a time. `None` comes exactly where its transfer register is empty.
    #[inline]
    pub fn falls_to_go(&self) -> Option<u32>
        ensures first { IfSome result (BeginsAt self.now.port) }
        ensures none { IfNone result (self.now.port.transfer ≡ None) }
    {
        match self.transfer {
            None => None,
            Some(t) => Some(self.falls_until(t.time)),
        }
    }

    // With which falling edge from now on a time is first due, if there is one.
    #[inline]
    fn falls_until(&self, time: Option<u16>) -> u32
        ensures { IsDueAt self.now.port.counter time result }
    {
        match time {
            None => 1,
            Some(time) => falls_between(self.counter, time),
        }
    }

    /// So many falling edges of its clock, at which it only counts.
    #[inline]
    pub fn counts(&mut self, falls: u32)
        ensures port { self.new ≡ record self.old { port = counted falls self.old.port } }
        ensures role { KeepsRole self.old.port self.new.port }
        ensures plain { IsPlain self.old.port → IsPlain self.new.port }
        ensures same { ServesAs self.old.port self.new.port }
    {
        self.counter = self.counter.wrapping_add((falls % 65536) as u16);
    }
}

// With which falling edge from now on a counter is a time, 1 to 65,536: where it is the time now, it first counts all round.
#[inline]
fn falls_between(counter: u16, time: u16) -> u32
    ensures { IsDueAt counter (Some time) result }
{
    1 + u32::from(time.wrapping_sub(counter).wrapping_sub(1))
}
