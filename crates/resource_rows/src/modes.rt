//! `setc`: what a resource of each kind does in a mode. See docs/EVENTS.md, docs/TIME.md and docs/PORTS.md.
ghost use Rattle.std.specs.Prelude.{◌≡◌, ◌<◌, ◌⊎◌, IfSome, option_map};
ghost use Rattle.xs_base.specs.declared.numbers.TheConstants.{THREADS, TIMERS, CLOCK_BLOCKS, PORTS};
ghost use Rattle.xs_model.specs.declared.modes.TheConstants.{OFF, ON};
ghost use Rattle.xs_model.specs.declared.resource.Res.TheVariants as res;
ghost use Rattle.xs_model.specs.Record.{timer_of, clock_of, with_enabled};
ghost use Rattle.xs_model.specs.Time.{with_after, started};
ghost use Rattle.xs_model.specs.Enabling.{forgotten};
ghost use Rattle.xs_model.specs.Outside.{LevelsFit};
ghost use Rattle.step_model.specs.Effect.{reg};
ghost use Rattle.step_model.specs.Named.{resource_named};
ghost use Rattle.step_model.specs.TimeRows.{timer_becomes, clock_becomes};
ghost use Rattle.step_model.specs.EventRows.{eventful};
ghost use Rattle.step_model.specs.ModeRows.{in_event_mode, timer_in_mode, clock_in_mode, resource_in_mode, port_in_mode, turns_port, sets_mode, with_restarted};
ghost use Rattle.core_units.specs.Ending.{IsEnding};
ghost use Rattle.core_units.specs.Units.{EndsWith};
ghost use Rattle.core_units.specs.Named.{IsWithin};
ghost use Rattle.resource_rows.specs.Changed.{IsChanged};

use crate::events::{Change, change_given, eventful};
use crate::ports::{Takes, at_port};
use buffered_ports::Ask;
use core_units::{Ending, Units, illegal, resource_named};
use xs_model::modes::{AFTER, EVENT, INTERRUPT, NO_CONDITION, OFF, ON, START, STOP};
use xs_model::{Clock, PinView, Res, Resource};

/// Puts what register s names into a mode.
pub(crate) fn set_mode(
    units: &mut Units,
    id: u16,
    k: u8,
    s: u8,
    mode: u32,
    pins: &PinView,
) -> Ending
    requires thread { k < THREADS }
    requires source { s < 12 }
    requires levels { LevelsFit pins.now.level }
    ensures within { IsEnding result }
    ensures row { EndsWith result units.old units.new (sets_mode units.old k (reg units.old k s) mode (resource_named id (reg units.old k s))) }
{
    let name = units.reg(k, s);
    let named = resource_named(id, name);
    match named {
        Some(Resource::Port { port }) => port_in_mode(units, k, name, port, mode, pins),
        _ => {
            let set = resource_in_mode(units, mode, named);
            Ending::Quietly(units.end(k, name, set))
        }
    }
}

// A resource other than a port is in a mode, where its kind has that mode.
fn resource_in_mode(units: &mut Units, mode: u32, named: Option<Resource>) -> bool
    requires { IfSome named IsWithin }
    ensures { IsChanged result units.old units.new (resource_in_mode units.old mode named) }
{
    match named {
        Some(Resource::Chan { .. }) => in_event_mode(units, mode, named),
        Some(Resource::Timer { timer }) => timer_in_mode(units, timer, mode),
        Some(Resource::Clock { clock }) => clock_in_mode(units, clock, mode),
        _ => false,
    }
}

// A timer has its condition or none, or is in a mode of what may give events.
fn timer_in_mode(units: &mut Units, timer: u8, mode: u32) -> bool
    requires { timer < TIMERS }
    ensures { IsChanged result units.old units.new (timer_in_mode units.old timer mode) }
{
    match mode {
        NO_CONDITION => set_after(units, timer, false),
        AFTER => set_after(units, timer, true),
        _ => in_event_mode(units, mode, Some(Resource::Timer { timer })),
    }
}

// A timer has the condition, or has none, where it is in use.
fn set_after(units: &mut Units, timer: u8, on: bool) -> bool
    requires { timer < TIMERS }
    ensures { IsChanged result units.old units.new (timer_becomes units.old timer (with_after on (timer_of units.old timer))) }
{
    units.timers.set_after(timer, on).is_ok()
}

// A clock block is turned on or off, starts or stops, where it may.
fn clock_in_mode(units: &mut Units, clock: u8, mode: u32) -> bool
    requires { clock < CLOCK_BLOCKS }
    ensures { IsChanged result units.old units.new (clock_in_mode units.old clock mode) }
{
    match mode {
        ON => {
            units.clocks.turn_on(clock);
            true
        }
        OFF => units.clocks.turn_off(clock).is_ok(),
        START => start_clock(units, clock),
        STOP => units.clocks.stop(clock).is_ok(),
        _ => false,
    }
}

// A clock block starts, where it is on, and restarts the counters of the ports that go by it.
fn start_clock(units: &mut Units, clock: u8) -> bool
    requires { clock < CLOCK_BLOCKS }
    ensures { IsChanged result units.old units.new (option_map (with_restarted clock) (clock_becomes units.old clock (started (clock_of units.old clock)))) }
{
    if units.clocks.start(clock).is_err() {
        return false;
    }
    units.ports.restart(Clock::Block(clock));
    true
}

// A port, which the word `name` names, is in a mode, where it has that mode.
fn port_in_mode(units: &mut Units, k: u8, name: u32, port: u8, mode: u32, pins: &PinView) -> Ending
    requires thread { k < THREADS }
    requires within { port < PORTS }
    requires levels { LevelsFit pins.now.level }
    ensures within { IsEnding result }
    ensures row { EndsWith result units.old units.new (port_in_mode units.old k name port mode) }
{
    match mode {
        EVENT | INTERRUPT => {
            let set = in_event_mode(units, mode, Some(Resource::Port { port }));
            Ending::Quietly(units.end(k, name, set))
        }
        OFF | ON => turn_port(units, k, name, port, mode, pins),
        _ => at_port(units, k, name, port, Takes::Nothing, Ask::Mode(mode), pins),
    }
}

// A port is turned on or off, while no thread is paused on it.
fn turn_port(units: &mut Units, k: u8, name: u32, port: u8, mode: u32, pins: &PinView) -> Ending
    requires thread { k < THREADS }
    requires within { port < PORTS }
    requires levels { LevelsFit pins.now.level }
    requires turn { (mode ≡ OFF) ⊎ (mode ≡ ON) }
    ensures within { IsEnding result }
    ensures row { EndsWith result units.old units.new (turns_port units.old k name port mode) }
{
    if units.is_paused_on(Resource::Port { port }) {
        return Ending::Quietly(illegal(name));
    }
    if mode == OFF && units.ports.on(port) {
        forget_port(units, port);
    }
    at_port(units, k, name, port, Takes::Nothing, Ask::Mode(mode), pins)
}

// What was set of a port's events is forgotten.
fn forget_port(units: &mut Units, port: u8)
    requires { port < PORTS }
    ensures { units.new ≡ with_enabled units.old (forgotten units.old.enabled (res.Port port)) }
{
    units.events.forget(Res::Port(port));
}

// In the modes of what may give events.
fn in_event_mode(units: &mut Units, mode: u32, named: Option<Resource>) -> bool
    requires { IfSome named IsWithin }
    ensures { IsChanged result units.old units.new (in_event_mode units.old mode (eventful units.old named)) }
{
    let resource = eventful(units, named);
    match mode {
        EVENT => change_given(units, resource, Change::Interrupts(false)),
        INTERRUPT => change_given(units, resource, Change::Interrupts(true)),
        _ => false,
    }
}
