//! The rows on ports. See docs/PORTS.md.
ghost use Rattle.std.specs.Prelude.{◌≡◌, ◌<◌, ◌≤◌, IfSome};
ghost use Rattle.xs_base.specs.Numbers.{Word};
ghost use Rattle.xs_base.specs.declared.numbers.TheConstants.{THREADS, PORTS};
ghost use Rattle.xs_base.specs.Ids.{port_with};
ghost use Rattle.xs_model.specs.Record.{PortRec, port_of};
ghost use Rattle.xs_model.specs.Outside.{LevelsFit};
ghost use Rattle.step_model.specs.Effect.{reg};
ghost use Rattle.step_model.specs.PortRows.{at_port, at_named_port, takes_no_word, goes_on_taking, clock_named, sets_clock, sets_strobe};
ghost use Rattle.core_units.specs.Ending.{IsEnding};
ghost use Rattle.core_units.specs.Units.{EndsWith};
ghost use Rattle.buffered_ports.specs.Asks.{asked, wait_of, IsAsk, IsClock};
ghost use Rattle.resource_rows.specs.Ports.{taking, IsTakes, acts, would_wait};

use crate::port_ends::{done, pause};
use buffered_ports::{Ask, Reply};
use core_units::{Ending, Units, illegal, resource_named};
use xs_base::{port_of, shl, shr};
use xs_model::traps::RESOURCE_DEPENDENCY;
use xs_model::{Clock, Outcome, PinView, Resource};

// The word by which `setclk` names the reference clock.
const REFERENCE: u32 = 1;

/// What a thread does with the word that a row at a port gives.
#[derive(Clone, Copy)]
pub(crate) enum Takes {
    Nothing,
    /// It goes into this register.
    Into(u8),
    /// This register is shifted down by the width of a transfer, and the word stands above.
    ShiftedIn(u8),
    /// This register is shifted down by the width of a transfer.
    ShiftedOut(u8),
}

/// A row on the port that register s names, whose pins show these levels from outside.
pub(crate) fn on_port(
    units: &mut Units,
    k: u8,
    s: u8,
    takes: Takes,
    ask: Ask,
    pins: &PinView,
) -> Ending
    requires thread { k < THREADS }
    requires source { s < 12 }
    requires target { IsTakes takes }
    requires ask { IsAsk ask }
    requires levels { LevelsFit pins.now.level }
    ensures within { IsEnding result }
    ensures row { EndsWith result units.old units.new
        (at_named_port units.old k (reg units.old k s) (taking takes) (acts units.old pins.now.level ask) (port_with (reg units.old k s))) }
{
    let name = units.reg(k, s);
    match port_of(name) {
        Some(port) => at_port(units, k, name, port, takes, ask, pins),
        None => Ending::Quietly(illegal(name)),
    }
}

/// A row at a port, which the word `name` names.
pub(crate) fn at_port(
    units: &mut Units,
    k: u8,
    name: u32,
    port: u8,
    takes: Takes,
    ask: Ask,
    pins: &PinView,
) -> Ending
    requires thread { k < THREADS }
    requires within { port < PORTS }
    requires target { IsTakes takes }
    requires ask { IsAsk ask }
    requires levels { LevelsFit pins.now.level }
    ensures within { IsEnding result }
    ensures row { EndsWith result units.old units.new (at_port units.old k name port (taking takes) (acts units.old pins.now.level ask port)) }
{
    if is_waited_for(units, port, ask) {
        return Ending::Quietly(Outcome::Trap {
            et: RESOURCE_DEPENDENCY,
            ed: name,
        });
    }
    let bits = units.ports.tw(port);
    let answer = units.ports.act(port, ask, pins.level[port as usize]);
    match answer.reply {
        Reply::Done => {
            take_word(units, k, takes, bits, 0);
            done(port, answer.pin)
        }
        Reply::Got(word) => {
            take_word(units, k, takes, bits, word);
            Ending::Quietly(Outcome::Done)
        }
        Reply::Pause(wait) => pause(port, wait, answer.pin),
        Reply::Bad => Ending::Quietly(illegal(name)),
    }
}

// Whether a row would pause at a port at which another thread is paused.
fn is_waited_for(units: &Units, port: u8, ask: Ask) -> bool
    requires { port < PORTS }
    ensures { (pin : Word) → result ≡ would_wait units.now (wait_of (asked ask units.now.ports port pin (port_of units.now port))) }
{
    match units.ports.pauses(port, ask) {
        Some(wait) => units.is_waited_at(wait),
        None => false,
    }
}

// Thread k does what it does with the word, at a port whose transfers have so many bits, and goes on.
fn take_word(units: &mut Units, k: u8, takes: Takes, bits: u32, word: u32)
    requires thread { k < THREADS }
    requires target { IsTakes takes }
    requires bits { bits ≤ 32 }
    ensures { (port : PortRec) → port.transfer_width ≡ bits → units.new ≡ goes_on_taking units.old k (taking takes port) word }
{
    match takes {
        Takes::Nothing => units.go_on(k),
        Takes::Into(d) => units.go_on_with(k, d, word),
        Takes::ShiftedIn(d) => {
            let above = shl(word, 32 - bits);
            let shifted = shr(units.reg(k, d), bits).wrapping_add(above);
            units.go_on_with(k, d, shifted);
        }
        Takes::ShiftedOut(d) => {
            let shifted = shr(units.reg(k, d), bits);
            units.go_on_with(k, d, shifted);
        }
    }
}

// ---- What rows set a port to

/// The port that register s names goes by the clock that register x names.
pub(crate) fn set_clock(units: &mut Units, id: u16, k: u8, s: u8, x: u8, pins: &PinView) -> Ending
    requires thread { k < THREADS }
    requires source { s < 12 }
    requires value { x < 12 }
    requires levels { LevelsFit pins.now.level }
    ensures within { IsEnding result }
    ensures row { EndsWith result units.old units.new
        (at_named_port units.old k (reg units.old k s) takes_no_word (sets_clock id units.old (reg units.old k x)) (port_with (reg units.old k s))) }
{
    let word = units.reg(k, x);
    match clock_named(units, id, word) {
        Some(clock) => on_port(units, k, s, Takes::Nothing, Ask::Clock(clock), pins),
        None => Ending::Quietly(illegal(units.reg(k, s))),
    }
}

// The clock that a word names.
fn clock_named(units: &Units, id: u16, word: u32) -> Option<Clock>
    ensures value { result ≡ clock_named id units.now word }
    ensures within { IfSome result IsClock }
{
    if word == REFERENCE {
        return Some(Clock::Reference);
    }
    match resource_named(id, word) {
        Some(Resource::Clock { clock }) if units.clocks.used(clock) => Some(Clock::Block(clock)),
        _ => None,
    }
}

/// The port that register s names has the port that register x names as its strobe, or none.
pub(crate) fn set_strobe(units: &mut Units, k: u8, s: u8, x: u8, pins: &PinView) -> Ending
    requires thread { k < THREADS }
    requires source { s < 12 }
    requires value { x < 12 }
    requires levels { LevelsFit pins.now.level }
    ensures within { IsEnding result }
    ensures row { EndsWith result units.old units.new
        (at_named_port units.old k (reg units.old k s) takes_no_word (sets_strobe units.old (reg units.old k x)) (port_with (reg units.old k s))) }
{
    let word = units.reg(k, x);
    if word == 0 {
        return on_port(units, k, s, Takes::Nothing, Ask::Strobe(None), pins);
    }
    match port_of(word) {
        Some(port) => on_port(units, k, s, Takes::Nothing, Ask::Strobe(Some(port)), pins),
        None => Ending::Quietly(illegal(units.reg(k, s))),
    }
}
