//! `Ports`, the ports of a core.
ghost use Rattle.std.specs.Prelude.{IfSome, ℕ, ◌≡◌, ◌≢◌, ◌<◌, ◌≤◌, ◌^◌, false, true, is_some, length, map, slice_set};
ghost use Rattle.xs_base.specs.Numbers.{Word, PortNumber};
ghost use Rattle.xs_base.specs.Ids.{port_width};
ghost use Rattle.xs_base.specs.declared.numbers.TheConstants.{PORTS};
ghost use Rattle.xs_model.specs.Masks.{in_mask};
ghost use Rattle.xs_model.specs.Choices.{port_is_ready};
ghost use Rattle.xs_model.specs.PortActions.{restarted};
ghost use Rattle.xs_model.specs.Ports.{level_of, port_edge, rises, falls};
ghost use Rattle.xs_model.specs.PortActions.{is_idle};
ghost use Rattle.single_port.specs.Asks.{IsAsk, FitsTransfer, IsClock, IsStrobe, answer_of, port_after, wait_of};
ghost use Rattle.buffered_ports.specs.Asks.{no_ports, port_at, is_allowed, asked};
ghost use Rattle.single_port.specs.Keeps.{ServesAs};
ghost use Rattle.buffered_ports.specs.Keeps.{IsEdged, ports_restarted};

use crate::marks::noted;
use bit_masks::with_bit;
use single_port::{Answer, Ask, Fallen, Port, Reply};
use std::marker::Model;
use xs_base::numbers::PORTS;
use xs_base::port_width;
use xs_model::{Clock, Edge, PinChange, Wait};

/// A core's 29 ports, numbered from 0: 0 to 15 are 1A to 1P, then come 4A to 4F, 8A to 8D, 16A, 16B and 32A. Contracts see
/// the list of their `PortRec`s of `Rattle.xs_model.specs.Record`. See docs/PORTS.md.
#[derive(Drop)]
pub struct Ports {
    pub(crate) ports: [Port; 29],
    // Which ports are on, which are ready, which have a strobe, and which are not still; and some that are plain, whose edges
    // are quick.
    pub(crate) on: u32,
    pub(crate) ready: u32,
    pub(crate) strobed: u32,
    pub(crate) moving: u32,
    pub(crate) plain: u32,
}

impl Model for Ports {
    ghost use Rattle.std.specs.Prelude.{List};
    ghost use Rattle.xs_model.specs.Record.{PortRec};

    ghost Value = { List PortRec };

    ghost use Rattle.buffered_ports.specs.Row.{row, IsRow};

    ghost view = { row };

    ghost invariant = { IsRow };
}

impl Ports {
    /// The ports at the start: all are off.
    pub fn new() -> Ports
        ensures off { result ≡ no_ports }
    {
        Ports {
            ports: Default::default(),
            on: 0,
            ready: 0,
            strobed: 0,
            moving: 0,
            plain: 0,
        }
    }

    /// The edge of the clock of port `port`, 0 to 28, if there is one. Its pins show `pin` from outside, which is below
    /// 2^width, and `strobe` says whether its strobe is high, if it has one. The answer is how its pins changed: `None`
    /// exactly where the driven value stays. See docs/PORTS.md.
    #[inline]
    pub fn edge(&mut self, port: u8, edge: Edge, pin: u32, strobe: bool) -> Option<PinChange>
        requires port { port < PORTS }
        requires pin { pin < 2 ^ port_width port }
        ensures port { let edged = port_edge (port_width port) edge (level_of (port_at self.old port).driven pin) strobe (port_at self.old port) in
            self.new ≡ slice_set self.old port edged.port }
        ensures change { let edged = port_edge (port_width port) edge (level_of (port_at self.old port).driven pin) strobe (port_at self.old port) in
            result ≡ edged.change }
    {
        if !self.ports[port as usize].is_on() {
            return None;
        }
        match edge {
            Edge::None => None,
            Edge::Rise => {
                self.rise(port, pin, strobe);
                None
            }
            Edge::Fall => self.fall(port).change,
        }
    }

    // The rising edge of port `p`, which is on: whether it may serve threads otherwise than before.
    #[inline]
    pub(crate) fn rise(&mut self, p: u8, pin: u32, strobe: bool) -> bool
        requires port { p < PORTS }
        requires on { (port_at self.old p).on ≡ true }
        requires pin { pin < 2 ^ port_width p }
        ensures ports { self.new ≡ slice_set self.old p (rises (port_width p) (level_of (port_at self.old p).driven pin) strobe (port_at self.old p)) }
        ensures edged { IsEdged p result self.old self.new }
    {
        let port = &mut self.ports[p as usize];
        let differs = port.rises(pin, strobe);
        self.ready = noted(self.ready, p, differs, port.is_ready());
        differs
    }

    // The falling edge of port `p`, which is on.
    #[inline]
    pub(crate) fn fall(&mut self, p: u8) -> Fallen
        requires port { p < PORTS }
        requires on { (port_at self.old p).on ≡ true }
        ensures ports { self.new ≡ slice_set self.old p (falls (port_width p) (port_at self.old p)).port }
        ensures change { result.change ≡ (falls (port_width p) (port_at self.old p)).change }
        ensures edged { IsEdged p result.differs self.old self.new }
    {
        let port = &mut self.ports[p as usize];
        let fallen = port.falls();
        self.ready = noted(self.ready, p, fallen.differs, port.is_ready());
        self.moving = noted(self.moving, p, fallen.differs, !port.is_still());
        fallen
    }

    /// What a row asks of port `port`, 0 to 28, whose pins show `pin` from outside, which is below 2^width. `Bad` comes
    /// exactly where the port is off, but for its being turned on, or where this is not for it, and then nothing changes.
    /// See docs/PORTS.md.
    pub fn act(&mut self, port: u8, ask: Ask, pin: u32) -> Answer
        requires port { port < PORTS }
        requires ask { IsAsk ask }
        ensures port { self.new ≡ slice_set self.old port (port_after (port_at self.old port) (asked ask self.old port pin (port_at self.old port))) }
        ensures answer { result ≡ answer_of (asked ask self.old port pin (port_at self.old port)) }
        ensures fits { FitsTransfer ask (port_at self.old port).transfer_width result.reply }
    {
        if !self.allows(port, ask) {
            return Answer {
                reply: Reply::Bad,
                pin: None,
            };
        }
        let place = &mut self.ports[port as usize];
        let answer = place.act(port, ask, pin);
        self.on = with_bit(self.on, port, place.is_on());
        self.ready = with_bit(self.ready, port, place.is_ready());
        self.strobed = with_bit(self.strobed, port, place.strobe().is_some());
        self.moving = with_bit(self.moving, port, !place.is_still());
        self.plain = with_bit(self.plain, port, place.is_plain());
        answer
    }

    // Whether the ports allow what is asked of port `p`.
    fn allows(&self, p: u8, ask: Ask) -> bool
        requires { IsAsk ask }
        ensures { result ≡ is_allowed ask self.now p }
    {
        match ask {
            Ask::Strobe(Some(strobe)) => {
                strobe != p && port_width(strobe) == 1 && self.ports[strobe as usize].is_on()
            }
            _ => true,
        }
    }

    /// For what a thread would have to wait that asks this of port `port`, 0 to 28, if it would: exactly where `act` would
    /// answer `Pause`.
    pub fn pauses(&self, port: u8, ask: Ask) -> Option<Wait>
        requires port { port < PORTS }
        ensures value { (pin : Word) → result ≡ wait_of (asked ask self.now port pin (port_at self.now port)) }
    {
        self.ports[port as usize].pauses(port, ask)
    }

    /// The ports that are ready, bit n for port n: their direction is input, and their transfer register is full.
    #[inline]
    pub fn ready(&self) -> u32
        ensures value { (p : PortNumber) → p < 32 → in_mask result p ≡ port_is_ready (port_at self.now p) }
        ensures count { length self.now ≡ PORTS }
    {
        self.ready
    }

    /// Whether the transfer register of a port is full: of none past the last port.
    #[inline]
    pub fn is_full(&self, port: u8) -> bool
        ensures { result ≡ is_some (port_at self.now port).transfer }
    {
        port < PORTS && self.ports[port as usize].is_full()
    }

    /// Whether a port has nothing left to put out, as every port in direction input, and any number past the last port.
    #[inline]
    pub fn is_idle(&self, port: u8) -> bool
        ensures { result ≡ is_idle (port_at self.now port) }
    {
        port >= PORTS || self.ports[port as usize].is_idle()
    }

    /// What the pins of port `port`, 0 to 28, show, which show `pin` from outside: what it drives, if it does.
    pub fn level(&self, port: u8, pin: u32) -> u32
        requires port { port < PORTS }
        ensures value { result ≡ level_of (port_at self.now port).driven pin }
    {
        self.ports[port as usize].level(pin)
    }

    /// What port `port`, 0 to 28, drives, None exactly where it drives nothing.
    pub fn driven(&self, port: u8) -> Option<u32>
        requires port { port < PORTS }
        ensures value { result ≡ (port_at self.now port).driven }
        ensures fits { IfSome result (λ value. value < 2 ^ port_width port) }
    {
        self.ports[port as usize].driven()
    }

    /// The clock by whose edges port `port`, 0 to 28, goes.
    pub fn clock(&self, port: u8) -> Clock
        requires port { port < PORTS }
        ensures value { result ≡ (port_at self.now port).clock }
        ensures is { IsClock result }
    {
        self.ports[port as usize].clock()
    }

    /// How many bits a transfer of port `port`, 0 to 28, has: 0 exactly where it is off.
    pub fn tw(&self, port: u8) -> u32
        requires port { port < PORTS }
        ensures value { result ≡ (port_at self.now port).transfer_width }
        ensures most { result ≤ 32 }
        ensures some { (port_at self.now port).on ≡ true → 0 < result }
        ensures off { (port_at self.now port).on ≡ false → result ≡ 0 }
    {
        self.ports[port as usize].transfer_width()
    }

    /// The strobe of port `port`, 0 to 28, which is another port: `None` exactly where there is none.
    pub fn strobe(&self, port: u8) -> Option<u8>
        requires port { port < PORTS }
        ensures value { result ≡ (port_at self.now port).strobe }
        ensures is { IsStrobe result }
    {
        self.ports[port as usize].strobe()
    }

    /// Whether port `port`, 0 to 28, is on.
    pub fn on(&self, port: u8) -> bool
        requires port { port < PORTS }
        ensures value { result ≡ (port_at self.now port).on }
    {
        self.ports[port as usize].is_on()
    }

    /// A clock starts: the counters of the ports that go by it begin anew, if it is a clock block. The reference clock
    /// never stops.
    pub fn restart(&mut self, clock: Clock)
        ensures value { self.new ≡ ports_restarted clock self.old }
    {
        if let Clock::Block(k) = clock {
            self.restart_block(k);
        }
    }

    fn restart_block(&mut self, k: u8)
        ensures { self.new ≡ map (restarted k) self.old }
    {
        let _ = &self.on;
        for p in 0..PORTS {
            self.restart_port(p, k);
        }
    }

    // Clock block `k` starts: the counter of port `p` begins anew, if the port goes by it.
    fn restart_port(&mut self, p: u8, k: u8)
        requires { p < PORTS }
        ensures { self.new ≡ slice_set self.old p (restarted k (port_at self.old p)) }
    {
        self.ports[p as usize].restarted(k);
    }
}
