//! What rows do at a port.
ghost use Rattle.std.specs.Prelude.{ℕ, ◌≡◌, ◌<◌, ◌≤◌, true, Option};
ghost use Rattle.xs_base.specs.Numbers.{Word};
ghost use Rattle.xs_base.specs.Ids.{port_width};
ghost use Rattle.xs_base.specs.declared.numbers.TheConstants.{PORTS};
ghost use Rattle.single_port.specs.Asks.{IsAsk, FitsTransfer, acted, answer_of, port_after, wait_of};
ghost use Rattle.single_port.specs.Keeps.{IsPlaced};
ghost use Rattle.xs_model.specs.PortActions.{take_in, put_bits, sync};

use crate::answers::{Answer, Ask};
use crate::port::Port;
use xs_model::Wait;

impl Port {
    /// What is asked of port `p`, 0 to 28, and allowed, whose pins show this from outside.
    pub fn act(&mut self, p: u8, ask: Ask, outside: u32) -> Answer
        requires port { p < PORTS }
        requires ask { IsAsk ask }
        requires placed { IsPlaced p self.old }
        ensures port { self.new.port ≡ port_after self.old.port (acted ask p outside self.old.port) }
        ensures answer { result ≡ answer_of (acted ask p outside self.old.port) }
        ensures fits { FitsTransfer ask self.old.port.transfer_width result.reply }
        ensures placed { IsPlaced p self.new }
    {
        if let Ask::Mode(mode) = ask {
            return self.in_mode(p, mode);
        }
        if !self.on {
            return Answer::bad();
        }
        self.act_on(p, ask, outside)
    }

    // What is asked of it while it is on, but for a mode.
    fn act_on(&mut self, p: u8, ask: Ask, outside: u32) -> Answer
        requires port { p < PORTS }
        requires ask { IsAsk ask }
        requires on { self.old.port.on ≡ true }
        requires placed { self.old.width ≡ port_width p }
        ensures port { self.new.port ≡ port_after self.old.port (acted ask p outside self.old.port) }
        ensures answer { result ≡ answer_of (acted ask p outside self.old.port) }
        ensures fits { FitsTransfer ask self.old.port.transfer_width result.reply }
        ensures placed { IsPlaced p self.new }
    {
        match ask {
            Ask::Mode(mode) => self.in_mode(p, mode),
            Ask::Clock(clock) => self.set_clock(clock),
            Ask::Strobe(strobe) => self.set_strobe(strobe),
            Ask::Width(x) => self.set_transfer_width(x),
            Ask::Value(x) => self.set_value(x),
            Ask::Time(x) => self.set_time(x),
            Ask::NoTime => self.clear_time(),
            Ask::In => self.take_in(p, None),
            Ask::InPart(bits) => self.take_part(p, bits),
            Ask::Out(x) => self.put_out(p, x),
            Ask::OutPart(x, bits) => self.put_part(p, bits, x),
            Ask::EndIn => self.end_in(),
            Ask::Sync => self.sync(p),
            Ask::Stamp => Answer::got(u32::from(self.stamp)),
            Ask::Peek => Answer::got(self.level(outside)),
            Ask::GetValue => Answer::got(self.value),
        }
    }

    /// For what a thread would have to wait that asks this of port `p`, 0 to 28.
    #[inline]
    pub fn pauses(&self, p: u8, ask: Ask) -> Option<Wait>
        requires { IsPlaced p self.now }
        ensures { (outside : Word) → result ≡ wait_of (acted ask p outside self.now.port) }
    {
        if !self.on {
            return None;
        }
        match ask {
            Ask::In => self.pauses_in(p),
            Ask::InPart(bits) if self.is_part(bits) => self.pauses_in(p),
            Ask::Out(_) => self.pauses_out(p),
            Ask::OutPart(_, bits) if self.is_part(bits) => self.pauses_out(p),
            Ask::Sync => self.pauses_sync(p),
            _ => None,
        }
    }

    fn pauses_in(&self, p: u8) -> Option<Wait>
        requires { self.now.port.on ≡ true }
        ensures { (wanted : Option ℕ) → result ≡ wait_of (take_in p wanted self.now.port) }
    {
        if self.output {
            if self.is_empty() {
                Some(Wait::PortFull { port: p })
            } else {
                Some(Wait::PortIdle { port: p })
            }
        } else if self.transfer.is_none() {
            Some(Wait::PortFull { port: p })
        } else {
            None
        }
    }

    fn pauses_out(&self, p: u8) -> Option<Wait>
        requires { self.now.port.on ≡ true }
        ensures { (bits : ℕ) (word : Word) → result ≡ wait_of (put_bits p bits word self.now.port) }
    {
        if self.output && self.transfer.is_some() {
            Some(Wait::PortEmpty { port: p })
        } else {
            None
        }
    }

    fn pauses_sync(&self, p: u8) -> Option<Wait>
        requires { self.now.port.on ≡ true }
        ensures { result ≡ wait_of (sync p self.now.port) }
    {
        if self.is_idle() {
            None
        } else {
            Some(Wait::PortIdle { port: p })
        }
    }
}
