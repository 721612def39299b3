//! How a port is turned on and off and set.
ghost use Rattle.std.specs.Prelude.{◌≡◌, ◌<◌, ◌≤◌, ◌%◌, ◌^◌, true, Some, None};
ghost use Rattle.xs_base.specs.Ids.{port_width};
ghost use Rattle.xs_base.specs.declared.numbers.TheConstants.{PORTS};
ghost use Rattle.xs_model.specs.Record.{Always, Equal, NotEqual};
ghost use Rattle.xs_model.specs.PortActions.{in_mode, turned_on, turned_off, let_go, set_mode, with_condition, resampled, cleared, unbuffered, buffered, set_clock, set_strobe, set_transfer_width, is_transfer_width, set_value, set_time, clear_time, goes_by, restarted};
ghost use Rattle.single_port.specs.Asks.{answer_of, port_after, IsClock, IsStrobe};
ghost use Rattle.single_port.specs.Keeps.{IsPlaced, KeepsRole, ServesAs, IsPlain, is_width};
ghost use Rattle.single_port.specs.States.{condition_of};

use crate::answers::{Answer, Reply};
use crate::port::Port;
use crate::state::Condition;
use xs_base::port_width;
use xs_model::modes::{BUFFERS, CLEAR, EQUAL, NO_BUFFERS, NO_CONDITION, NOT_EQUAL, OFF, ON};
use xs_model::{Clock, PinChange};

impl Port {
    /// A mode of port `p`, 0 to 28, by its number.
    pub(crate) fn in_mode(&mut self, p: u8, mode: u32) -> Answer
        requires port { p < PORTS }
        requires placed { IsPlaced p self.old }
        ensures port { self.new.port ≡ port_after self.old.port (in_mode (port_width p) mode self.old.port) }
        ensures answer { result ≡ answer_of (in_mode (port_width p) mode self.old.port) }
        ensures placed { IsPlaced p self.new }
    {
        if mode == ON {
            return self.turned_on(port_width(p));
        }
        if !self.on {
            return Answer::bad();
        }
        if mode == OFF {
            self.turned_off()
        } else {
            self.set_mode(mode)
        }
    }

    fn turned_on(&mut self, width: u32) -> Answer
        requires some { 0 < width }
        requires most { width ≤ 32 }
        ensures port { self.new.port ≡ port_after self.old.port (turned_on width self.old.port) }
        ensures width { self.new.width ≡ width }
        ensures answer { result ≡ answer_of (turned_on width self.old.port) }
    {
        let pin = self.let_go();
        *self = Port::just_on(width);
        Answer {
            reply: Reply::Done,
            pin,
        }
    }

    fn turned_off(&mut self) -> Answer
        requires { self.old.port.on ≡ true }
        ensures port { self.new.port ≡ port_after self.old.port (turned_off self.old.port) }
        ensures answer { result ≡ answer_of (turned_off self.old.port) }
    {
        let pin = self.let_go();
        *self = Port::default();
        Answer {
            reply: Reply::Done,
            pin,
        }
    }

    /// That it lets go of its pins, if it drives them.
    pub(crate) fn let_go(&self) -> Option<PinChange>
        ensures { result ≡ let_go self.now.port }
    {
        if self.driven.is_some() {
            Some(PinChange::Float)
        } else {
            None
        }
    }

    // A mode but for on and off.
    fn set_mode(&mut self, mode: u32) -> Answer
        requires { self.old.port.on ≡ true }
        ensures port { self.new ≡ record self.old { port = port_after self.old.port (set_mode self.old.width mode self.old.port) } }
        ensures answer { result ≡ answer_of (set_mode self.old.width mode self.old.port) }
    {
        match mode {
            NO_CONDITION => self.with_condition(Condition::None),
            EQUAL => self.with_condition(Condition::Equal),
            NOT_EQUAL => self.with_condition(Condition::NotEqual),
            CLEAR => self.cleared(),
            NO_BUFFERS => self.unbuffered(),
            BUFFERS => self.buffered(),
            _ => return Answer::bad(),
        }
        Answer::done()
    }

    fn with_condition(&mut self, condition: Condition)
        ensures { self.new ≡ record self.old { port = with_condition (condition_of condition) self.old.port } }
    {
        self.condition = condition;
        self.resampled();
    }

    // In direction input what was sampled is dropped.
    fn resampled(&mut self)
        ensures { self.new ≡ record self.old { port = resampled self.old.port } }
    {
        if !self.output {
            self.transfer = None;
            self.held = false;
        }
    }

    fn cleared(&mut self)
        ensures { self.new ≡ record self.old { port = cleared self.old.port } }
    {
        self.shift.clear();
        self.transfer = None;
        self.time = None;
        self.condition = Condition::None;
        self.held = false;
    }

    fn unbuffered(&mut self)
        requires { self.old.port.on ≡ true }
        ensures { self.new ≡ record self.old { port = unbuffered self.old.width self.old.port } }
    {
        self.cleared();
        self.buffered = false;
        self.transfer_width = self.shift.width();
        self.wanted = self.shift.width();
    }

    fn buffered(&mut self)
        ensures { self.new ≡ record self.old { port = buffered self.old.port } }
    {
        self.cleared();
        self.buffered = true;
    }

    pub(crate) fn set_clock(&mut self, clock: Clock) -> Answer
        requires on { self.old.port.on ≡ true }
        requires clock { IsClock clock }
        ensures port { self.new ≡ record self.old { port = port_after self.old.port (set_clock clock self.old.port) } }
        ensures answer { result ≡ answer_of (set_clock clock self.old.port) }
    {
        self.clock = clock;
        self.counter = 0;
        Answer::done()
    }

    pub(crate) fn set_strobe(&mut self, strobe: Option<u8>) -> Answer
        requires on { self.old.port.on ≡ true }
        requires strobe { IsStrobe strobe }
        ensures port { self.new ≡ record self.old { port = port_after self.old.port (set_strobe strobe self.old.port) } }
        ensures answer { result ≡ answer_of (set_strobe strobe self.old.port) }
    {
        self.strobe = strobe;
        Answer::done()
    }

    pub(crate) fn set_transfer_width(&mut self, x: u32) -> Answer
        requires { self.old.port.on ≡ true }
        ensures port { self.new ≡ record self.old { port = port_after self.old.port (set_transfer_width self.old.width x self.old.port) } }
        ensures answer { result ≡ answer_of (set_transfer_width self.old.width x self.old.port) }
    {
        if !self.buffered || !is_transfer_width(self.shift.width(), x) {
            return Answer::bad();
        }
        self.cleared();
        self.transfer_width = x;
        self.wanted = x;
        Answer::done()
    }

    pub(crate) fn set_value(&mut self, x: u32) -> Answer
        requires { self.old.port.on ≡ true }
        ensures port { self.new ≡ record self.old { port = port_after self.old.port (set_value self.old.width x self.old.port) } }
        ensures answer { result ≡ answer_of (set_value self.old.width x self.old.port) }
    {
        self.value = low_bits(x, self.shift.width());
        Answer::done()
    }

    pub(crate) fn set_time(&mut self, x: u32) -> Answer
        requires { self.old.port.on ≡ true }
        ensures port { self.new ≡ record self.old { port = port_after self.old.port (set_time x self.old.port) } }
        ensures answer { result ≡ answer_of (set_time x self.old.port) }
    {
        self.time = Some((x % 65_536) as u16);
        self.resampled();
        Answer::done()
    }

    pub(crate) fn clear_time(&mut self) -> Answer
        requires { self.old.port.on ≡ true }
        ensures port { self.new ≡ record self.old { port = port_after self.old.port (clear_time self.old.port) } }
        ensures answer { result ≡ answer_of (clear_time self.old.port) }
    {
        self.time = None;
        Answer::done()
    }

    /// Clock block `k` starts: if the port goes by it, its counter begins anew.
    pub fn restarted(&mut self, k: u8)
        ensures port { self.new ≡ record self.old { port = restarted k self.old.port } }
        ensures role { KeepsRole self.old.port self.new.port }
        ensures same { ServesAs self.old.port self.new.port }
        ensures plain { IsPlain self.old.port → IsPlain self.new.port }
    {
        if self.goes_by(k) {
            self.counter = 0;
        }
    }

    fn goes_by(&self, k: u8) -> bool
        ensures { result ≡ goes_by k self.now.port.clock }
    {
        match self.clock {
            Clock::Reference => false,
            Clock::Block(n) => n == k,
        }
    }
}

// Whether the transfers of a port of this width may have so many bits.
fn is_transfer_width(width: u32, x: u32) -> bool
    requires { 0 < width }
    ensures is { result ≡ is_transfer_width width x }
    ensures bound { result ≡ true → (width ≤ x) × (x ≤ 32) }
{
    is_width(x) && x % width == 0
}

// Whether there are ports of this width.
fn is_width(x: u32) -> bool
    ensures is { result ≡ is_width x }
    ensures bound { result ≡ true → (0 < x) × (x ≤ 32) }
{
    x == 1 || x == 4 || x == 8 || x == 16 || x == 32
}

/// The low bits of a word, so many, at most 32.
pub(crate) fn low_bits(word: u32, count: u32) -> u32
    requires { count ≤ 32 }
    ensures value { result ≡ word % 2 ^ count }
    ensures fits { result < 2 ^ count }
{
    let whole = u64::from(word);
    (whole % (1 << count)) as u32
}
