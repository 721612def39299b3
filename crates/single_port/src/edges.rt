//! What the edges of its clock do at a port. At the falling edge its counter rises, and in direction output a beat goes
//! out.
ghost use Rattle.std.specs.Prelude.{◌≡◌, ◌<◌, ◌^◌, Bool, true, false, is_some};
ghost use Rattle.single_port.specs.Keeps.{ServesAs, KeepsRole, IsPlain};
ghost use Rattle.xs_model.specs.Ports.{falls, outputs, next_out, beat_out, drives, shows, is_due, rises, lets_sample, level_of, unchanged};

use crate::port::Port;
use crate::transfer::TransferWord;
use xs_model::PinChange;

/// What a falling edge did: how the port's pins changed, and whether it may serve threads otherwise than before.
#[derive(Clone, Copy)]
pub struct Fallen {
    pub change: Option<PinChange>,
    pub differs: bool,
}

impl Port {
    /// The falling edge of its clock, while it is on.
    #[inline]
    pub fn falls(&mut self) -> Fallen
        ensures port { self.new ≡ record self.old { port = (falls self.old.width self.old.port).port } }
        ensures change { result.change ≡ (falls self.old.width self.old.port).change }
        ensures role { KeepsRole self.old.port self.new.port }
        ensures plain { IsPlain self.old.port → IsPlain self.new.port }
        ensures same { result.differs ≡ false → ServesAs self.old.port self.new.port }
    {
        self.counter = self.counter.wrapping_add(1);
        if self.output {
            self.goes_out()
        } else {
            Fallen {
                change: None,
                differs: false,
            }
        }
    }

    fn goes_out(&mut self) -> Fallen
        requires { self.old.port.output ≡ true }
        ensures port { self.new ≡ record self.old { port = (outputs self.old.width self.old.port).port } }
        ensures change { result.change ≡ (outputs self.old.width self.old.port).change }
        ensures role { KeepsRole self.old.port self.new.port }
        ensures same { result.differs ≡ false → ServesAs self.old.port self.new.port }
    {
        let was_full = self.is_full();
        let had_bits = self.has_bits();
        let change = self.outputs();
        Fallen {
            change,
            differs: self.serves_otherwise(was_full, had_bits),
        }
    }

    fn outputs(&mut self) -> Option<PinChange>
        requires { self.old.port.output ≡ true }
        ensures port { self.new ≡ record self.old { port = (outputs self.old.width self.old.port).port } }
        ensures change { result ≡ (outputs self.old.width self.old.port).change }
        ensures role { KeepsRole self.old.port self.new.port }
    {
        if self.shift.bits() > 0 {
            self.beat_out()
        } else {
            self.next_out(self.transfer)
        }
    }

    fn next_out(&mut self, transfer: Option<TransferWord>) -> Option<PinChange>
        requires output { self.old.port.output ≡ true }
        requires transfer { transfer ≡ self.old.port.transfer }
        ensures port { self.new ≡ record self.old { port = (next_out self.old.width self.old.port transfer).port } }
        ensures change { result ≡ (next_out self.old.width self.old.port transfer).change }
        ensures role { KeepsRole self.old.port self.new.port }
    {
        match transfer {
            Some(t) if self.is_due(t.time) => {
                self.shift.load(t.value, t.bits);
                self.transfer = None;
                self.stamp = self.counter;
                self.beat_out()
            }
            _ => None,
        }
    }

    fn is_due(&self, time: Option<u16>) -> bool
        ensures { result ≡ is_due self.now.port.counter time }
    {
        match time {
            None => true,
            Some(time) => self.counter == time,
        }
    }

    fn beat_out(&mut self) -> Option<PinChange>
        requires { self.old.port.output ≡ true }
        ensures port { self.new ≡ record self.old { port = (beat_out self.old.width self.old.port).port } }
        ensures change { result ≡ (beat_out self.old.width self.old.port).change }
        ensures role { KeepsRole self.old.port self.new.port }
    {
        let value = self.shift.beat_out();
        self.drives(value)
    }

    fn drives(&mut self, value: u32) -> Option<PinChange>
        requires output { self.old.port.output ≡ true }
        requires fits { value < 2 ^ self.old.width }
        ensures port { self.new ≡ record self.old { port = (drives value self.old.port).port } }
        ensures change { result ≡ (drives value self.old.port).change }
        ensures role { KeepsRole self.old.port self.new.port }
    {
        let same = self.shows(value);
        self.driven = Some(value);
        if same {
            None
        } else {
            Some(PinChange::Drive(value))
        }
    }

    fn shows(&self, value: u32) -> bool
        ensures { result ≡ shows value self.now.port.driven }
    {
        match self.driven {
            None => false,
            Some(driven) => driven == value,
        }
    }

    /// The rising edge of its clock, while it is on: in direction input its pins are sampled, which show this from outside.
    /// The answer tells whether it may serve threads otherwise than before.
    #[inline]
    pub fn rises(&mut self, outside: u32, high: bool) -> bool
        requires on { self.old.port.on ≡ true }
        requires fits { outside < 2 ^ self.old.width }
        ensures port { self.new ≡ record self.old { port = rises self.old.width (level_of self.old.port.driven outside) high self.old.port } }
        ensures role { KeepsRole self.old.port self.new.port }
        ensures plain { IsPlain self.old.port → IsPlain self.new.port }
        ensures same { result ≡ false → ServesAs self.old.port self.new.port }
    {
        if self.output || !self.lets_sample(high) {
            return false;
        }
        // In direction input too it may drive its pins.
        self.sampled(self.level(outside))
    }

    /// The rising edge of the reference clock at a plain port.
    #[inline]
    pub fn rises_plainly(&mut self, outside: u32)
        requires plain { IsPlain self.old.port }
        requires fits { outside < 2 ^ self.old.width }
        ensures port { (high : Bool) → self.new ≡ record self.old { port = rises self.old.width (level_of self.old.port.driven outside) high self.old.port } }
        ensures width { self.new.width ≡ self.old.width }
        ensures role { KeepsRole self.old.port self.new.port }
        ensures plain { IsPlain self.new.port }
        ensures full { is_some self.new.port.transfer ≡ true }
        ensures same { is_some self.old.port.transfer ≡ true → ServesAs self.old.port self.new.port }
    {
        self.takes_level(outside);
    }

    /// The falling edge of the reference clock at a plain port.
    #[inline]
    pub fn falls_plainly(&mut self)
        requires { IsPlain self.old.port }
        ensures edged { falls self.old.width self.old.port ≡ unchanged self.new.port }
        ensures width { self.new.width ≡ self.old.width }
        ensures role { KeepsRole self.old.port self.new.port }
        ensures plain { IsPlain self.new.port }
        ensures same { ServesAs self.old.port self.new.port }
    {
        self.counter = self.counter.wrapping_add(1);
    }

    #[inline]
    fn lets_sample(&self, high: bool) -> bool
        ensures { result ≡ lets_sample self.now.port.strobe high }
    {
        match self.strobe {
            None => true,
            Some(_) => high,
        }
    }
}
