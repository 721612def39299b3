//! How a thread takes what comes in.
ghost use Rattle.std.specs.Prelude.{ℕ, ◌≡◌, ◌<◌, ◌≤◌, ◌^◌, Option, Some, None, true, false, IfSome};
ghost use Rattle.xs_base.specs.Ids.{port_width};
ghost use Rattle.xs_model.specs.Record.{TransferRec};
ghost use Rattle.xs_model.specs.PortActions.{turned_in, wanting, taken, take_transfer, turn_in, take_in, is_part, take_part, cut_short, end_transfer, end_in};
ghost use Rattle.single_port.specs.Asks.{answer_of, port_after, IsBelow};

use crate::answers::Answer;
use crate::port::Port;
use crate::state::Condition;
use crate::transfer::TransferWord;
use xs_model::Wait;

impl Port {
    /// The next transfer that comes in at port `p`.
    pub(crate) fn take_in(&mut self, p: u8, wanted: Option<u32>) -> Answer
        requires { self.old.port.on ≡ true }
        ensures port { self.new ≡ record self.old { port = port_after self.old.port (take_in p wanted self.old.port) } }
        ensures answer { result ≡ answer_of (take_in p wanted self.old.port) }
        ensures fits { IsBelow self.old.port.transfer_width result.reply }
    {
        if self.output {
            self.turn_in(p, wanted)
        } else {
            self.take_transfer(p, wanted, self.transfer)
        }
    }

    fn turn_in(&mut self, p: u8, wanted: Option<u32>) -> Answer
        ensures port { self.new ≡ record self.old { port = port_after self.old.port (turn_in p wanted self.old.port) } }
        ensures answer { result ≡ answer_of (turn_in p wanted self.old.port) }
        ensures fits { (bits : ℕ) → IsBelow bits result.reply }
    {
        if self.is_empty() {
            let pin = self.let_go();
            self.turned_in();
            self.wanting(wanted);
            Answer::pause(Wait::PortFull { port: p }, pin)
        } else {
            self.wanting(wanted);
            Answer::pause(Wait::PortIdle { port: p }, None)
        }
    }

    fn take_transfer(
        &mut self,
        p: u8,
        wanted: Option<u32>,
        transfer: Option<TransferWord>,
    ) -> Answer
        requires { IfSome transfer (λ t. t.value < 2 ^ self.old.port.transfer_width) }
        ensures port { self.new ≡ record self.old { port = port_after self.old.port (take_transfer p wanted self.old.port transfer) } }
        ensures answer { result ≡ answer_of (take_transfer p wanted self.old.port transfer) }
        ensures fits { IsBelow self.old.port.transfer_width result.reply }
    {
        match transfer {
            None => {
                self.wanting(wanted);
                Answer::pause(Wait::PortFull { port: p }, None)
            }
            Some(t) => {
                self.taken();
                Answer::got(t.value)
            }
        }
    }

    fn turned_in(&mut self)
        ensures { self.new ≡ record self.old { port = turned_in self.old.port } }
    {
        self.output = false;
        self.shift.clear();
        self.transfer = None;
        self.time = None;
        self.driven = None;
    }

    fn wanting(&mut self, wanted: Option<u32>)
        ensures { self.new ≡ record self.old { port = wanting wanted self.old.port } }
    {
        if let Some(bits) = wanted {
            self.wanted = bits;
        }
    }

    fn taken(&mut self)
        ensures { self.new ≡ record self.old { port = taken self.old.port } }
    {
        self.transfer = None;
        self.stamp = self.sample_stamp;
        self.held = false;
        self.condition = Condition::None;
        self.wanted = self.transfer_width;
    }

    /// The next transfer that comes in at port `p`, of so many bits.
    pub(crate) fn take_part(&mut self, p: u8, bits: u32) -> Answer
        requires on { self.old.port.on ≡ true }
        requires placed { self.old.width ≡ port_width p }
        ensures port { self.new ≡ record self.old { port = port_after self.old.port (take_part p bits self.old.port) } }
        ensures answer { result ≡ answer_of (take_part p bits self.old.port) }
        ensures fits { IsBelow self.old.port.transfer_width result.reply }
    {
        if self.is_part(bits) {
            self.take_in(p, Some(bits))
        } else {
            Answer::bad()
        }
    }

    /// Whether a transfer may have so many bits.
    pub(crate) fn is_part(&self, bits: u32) -> bool
        ensures is { result ≡ is_part self.now.width bits self.now.port }
        ensures bound { result ≡ true → bits ≤ self.now.port.transfer_width }
    {
        self.buffered && bits % self.shift.width() == 0 && bits <= self.transfer_width
    }

    /// The end of the transfer that comes in.
    pub(crate) fn end_in(&mut self) -> Answer
        requires { self.old.port.on ≡ true }
        ensures port { self.new ≡ record self.old { port = port_after self.old.port (end_in self.old.port) } }
        ensures answer { result ≡ answer_of (end_in self.old.port) }
    {
        if self.output || !self.buffered {
            return Answer::bad();
        }
        self.end_transfer()
    }

    fn end_transfer(&mut self) -> Answer
        ensures port { self.new ≡ record self.old { port = port_after self.old.port (end_transfer self.old.port self.old.port.transfer) } }
        ensures answer { result ≡ answer_of (end_transfer self.old.port self.old.port.transfer) }
    {
        match self.transfer {
            Some(_) => Answer::got(self.transfer_width),
            None => {
                let bits = self.shift.bits();
                self.cut_short();
                Answer::got(bits)
            }
        }
    }

    fn cut_short(&mut self)
        ensures { self.new ≡ record self.old { port = cut_short self.old.port } }
    {
        if self.shift.bits() > 0 {
            self.takes_shift();
            self.shift.clear();
        }
    }
}
