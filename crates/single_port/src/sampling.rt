//! How a port samples what its pins show.
ghost use Rattle.std.specs.Prelude.{◌≡◌, ◌<◌, ◌^◌, true, false, Option, None, Some};
ghost use Rattle.xs_model.specs.Record.{TransferRec};
ghost use Rattle.xs_model.specs.Ports.{sampled, samples, takes_by_time, takes_in_time, takes_if_met, takes_level, emptied, is_met, is_condition, samples_buffered, begins, shifts_in, completes, is_complete, keeps_or_takes};
ghost use Rattle.single_port.specs.Keeps.{takes_shift, ServesAs, KeepsRole, KeepsShift};

use crate::port::Port;
use crate::state::Condition;
use crate::transfer::TransferWord;

impl Port {
    /// Its pins are sampled, which show this. The answer tells whether it may serve threads otherwise than before.
    #[inline]
    pub(crate) fn sampled(&mut self, level: u32) -> bool
        requires on { self.old.port.on ≡ true }
        requires fits { level < 2 ^ self.old.width }
        ensures port { self.new ≡ record self.old { port = sampled self.old.width level self.old.port } }
        ensures role { KeepsRole self.old.port self.new.port }
        ensures same { result ≡ false → ServesAs self.old.port self.new.port }
    {
        if self.buffered {
            self.samples_buffered(level)
        } else {
            self.samples(level)
        }
    }

    // Without buffers the transfer register takes each level.
    #[inline]
    fn samples(&mut self, level: u32) -> bool
        requires on { self.old.port.on ≡ true }
        requires fits { level < 2 ^ self.old.width }
        ensures port { self.new ≡ record self.old { port = samples self.old.width level self.old.port } }
        ensures role { KeepsRole self.old.port self.new.port }
        ensures same { result ≡ false → ServesAs self.old.port self.new.port }
    {
        if self.held {
            return false;
        }
        let was_full = self.transfer.is_some();
        self.takes_by_time(level);
        self.transfer.is_some() != was_full
    }

    #[inline]
    fn takes_by_time(&mut self, level: u32)
        requires on { self.old.port.on ≡ true }
        requires fits { level < 2 ^ self.old.width }
        ensures port { self.new ≡ record self.old { port = takes_by_time self.old.width level self.old.port self.old.port.time } }
        ensures keeps { KeepsShift self.old.port self.new.port }
    {
        match self.time {
            None => self.takes_if_met(level),
            Some(time) if self.counter == time => self.takes_in_time(level),
            Some(_) => self.transfer = None,
        }
    }

    fn takes_in_time(&mut self, level: u32)
        requires on { self.old.port.on ≡ true }
        requires fits { level < 2 ^ self.old.width }
        ensures port { self.new ≡ record self.old { port = takes_in_time self.old.width level self.old.port } }
        ensures keeps { KeepsShift self.old.port self.new.port }
    {
        self.time = None;
        if self.has_condition() {
            self.takes_if_met(level);
        } else {
            self.held = true;
            self.takes_level(level);
        }
    }

    #[inline]
    fn takes_if_met(&mut self, level: u32)
        requires on { self.old.port.on ≡ true }
        requires fits { level < 2 ^ self.old.width }
        ensures port { self.new ≡ record self.old { port = takes_if_met self.old.width level self.old.port } }
        ensures keeps { KeepsShift self.old.port self.new.port }
    {
        if self.is_met(level) {
            self.takes_level(level);
        } else {
            self.transfer = None;
        }
    }

    /// The transfer register takes a level, with the counter as its stamp.
    #[inline]
    pub(crate) fn takes_level(&mut self, level: u32)
        requires on { self.old.port.on ≡ true }
        requires fits { level < 2 ^ self.old.width }
        ensures port { self.new ≡ record self.old { port = takes_level self.old.width level self.old.port } }
        ensures keeps { KeepsShift self.old.port self.new.port }
    {
        self.transfer = Some(TransferWord {
            value: level,
            bits: self.shift.width(),
            time: None,
        });
        self.sample_stamp = self.counter;
    }

    #[inline]
    fn is_met(&self, level: u32) -> bool
        ensures { result ≡ is_met self.now.port.condition self.now.port.value level }
    {
        match self.condition {
            Condition::None => true,
            Condition::Equal => level == self.value,
            Condition::NotEqual => level != self.value,
        }
    }

    #[inline]
    fn has_condition(&self) -> bool
        ensures { result ≡ is_condition self.now.port.condition }
    {
        match self.condition {
            Condition::None => false,
            Condition::Equal | Condition::NotEqual => true,
        }
    }

    // With buffers levels are shifted in, until a transfer is complete.
    fn samples_buffered(&mut self, level: u32) -> bool
        requires on { self.old.port.on ≡ true }
        requires fits { level < 2 ^ self.old.width }
        ensures port { self.new ≡ record self.old { port = samples_buffered self.old.width level self.old.port } }
        ensures role { KeepsRole self.old.port self.new.port }
        ensures same { result ≡ false → ServesAs self.old.port self.new.port }
    {
        if !self.is_met(level) {
            return false;
        }
        let was_full = self.is_full();
        let had_bits = self.has_bits();
        self.begins();
        self.shifts_in(level);
        self.completes();
        self.serves_otherwise(was_full, had_bits)
    }

    fn begins(&mut self)
        ensures port { self.new ≡ record self.old { port = begins self.old.port } }
        ensures role { KeepsRole self.old.port self.new.port }
    {
        if self.has_condition() {
            self.condition = Condition::None;
            self.shift.clear();
        }
    }

    fn shifts_in(&mut self, level: u32)
        requires on { self.old.port.on ≡ true }
        requires fits { level < 2 ^ self.old.width }
        ensures port { self.new ≡ record self.old { port = shifts_in self.old.width level self.old.port } }
        ensures role { KeepsRole self.old.port self.new.port }
    {
        self.shift.beat_in(level, self.transfer_width);
    }

    fn completes(&mut self)
        ensures port { self.new ≡ record self.old { port = completes self.old.port } }
        ensures role { KeepsRole self.old.port self.new.port }
    {
        if self.is_complete() {
            self.keeps_or_takes();
            self.shift.clear();
            self.time = None;
        }
    }

    fn is_complete(&self) -> bool
        ensures { result ≡ is_complete self.now.port self.now.port.time }
    {
        match self.time {
            None => self.wanted <= self.shift.bits(),
            Some(time) => self.counter == time,
        }
    }

    fn keeps_or_takes(&mut self)
        ensures port { self.new ≡ record self.old { port = keeps_or_takes self.old.port } }
        ensures role { KeepsRole self.old.port self.new.port }
    {
        if self.transfer.is_none() {
            self.takes_shift();
        }
    }

    /// The bits that are shifted in become what came in, with the counter as their stamp.
    pub(crate) fn takes_shift(&mut self)
        ensures port { self.new ≡ record self.old { port = takes_shift self.old.port } }
        ensures role { KeepsRole self.old.port self.new.port }
    {
        self.transfer = Some(TransferWord {
            value: self.shift.word(self.transfer_width),
            bits: self.shift.bits(),
            time: None,
        });
        self.sample_stamp = self.counter;
    }
}
