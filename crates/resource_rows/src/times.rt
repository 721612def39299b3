//! `in` on a timer, and what is set and told of timers and clock blocks, and by the same rows of channel ends and ports. See
//! docs/TIME.md.
ghost use Rattle.std.specs.Prelude.{◌<◌};
ghost use Rattle.xs_base.specs.declared.numbers.TheConstants.{THREADS, TIMERS, CLOCK_BLOCKS};
ghost use Rattle.xs_model.specs.Record.{timer_of, clock_of};
ghost use Rattle.xs_model.specs.Time.{with_value, divided_by};
ghost use Rattle.xs_model.specs.Outside.{LevelsFit};
ghost use Rattle.step_model.specs.Effect.{reg};
ghost use Rattle.step_model.specs.Named.{resource_named};
ghost use Rattle.step_model.specs.TimeRows.{timer_becomes, clock_becomes, takes_time};
ghost use Rattle.step_model.specs.ResourceRows.{sets_data, tells_data};
ghost use Rattle.core_units.specs.Ending.{IsEnding};
ghost use Rattle.core_units.specs.Units.{Ends, EndsWith};
ghost use Rattle.resource_rows.specs.Changed.{IsChanged};

use crate::actions::Action;
use crate::chans::{at_chan, wait};
use crate::ports::{Takes, at_port};
use buffered_ports::Ask;
use core_units::{Ending, Units, illegal, resource_named};
use timers_clocks::Timers;
use xs_model::{Outcome, PinView, Resource, Wait};

/// Thread k takes the time into register d, or waits until the condition of a timer, which the word `name` names,
/// holds.
pub(crate) fn take_time(units: &mut Units, slot: u32, k: u8, d: u8, name: u32, timer: u8) -> Outcome
    requires thread { k < THREADS }
    requires target { d < 12 }
    requires within { timer < TIMERS }
    ensures { Ends result units.old units.new (takes_time slot units.old k d name timer) }
{
    if !units.timers.used(timer) {
        return illegal(name);
    }
    if units.timers.holds(timer, slot) {
        units.go_on_with(k, d, Timers::time(slot));
        return Outcome::Done;
    }
    wait(units, name, Wait::Timer { timer })
}

/// The channel end that register s names takes the word of register x as its destination, the timer or the port takes it
/// as its value, or the clock block as its divider.
pub(crate) fn set_data(units: &mut Units, id: u16, k: u8, s: u8, x: u8, pins: &PinView) -> Ending
    requires thread { k < THREADS }
    requires source { s < 12 }
    requires value { x < 12 }
    requires levels { LevelsFit pins.now.level }
    ensures within { IsEnding result }
    ensures row { EndsWith result units.old units.new (sets_data units.old k (reg units.old k s) (reg units.old k x) (resource_named id (reg units.old k s))) }
{
    let (name, word) = (units.reg(k, s), units.reg(k, x));
    match resource_named(id, name) {
        Some(Resource::Chan { chan }) => {
            Ending::Quietly(at_chan(units, k, name, chan, Action::SetDest(word), None))
        }
        Some(Resource::Timer { timer }) => {
            let set = set_value(units, timer, word);
            Ending::Quietly(units.end(k, name, set))
        }
        Some(Resource::Clock { clock }) => {
            let set = set_divider(units, clock, word);
            Ending::Quietly(units.end(k, name, set))
        }
        Some(Resource::Port { port }) => {
            at_port(units, k, name, port, Takes::Nothing, Ask::Value(word), pins)
        }
        _ => Ending::Quietly(illegal(name)),
    }
}

/// What of these is set goes into register d.
pub(crate) fn tell_data(units: &mut Units, id: u16, k: u8, d: u8, s: u8, pins: &PinView) -> Ending
    requires thread { k < THREADS }
    requires target { d < 12 }
    requires source { s < 12 }
    requires levels { LevelsFit pins.now.level }
    ensures within { IsEnding result }
    ensures row { EndsWith result units.old units.new (tells_data units.old k d (reg units.old k s) (resource_named id (reg units.old k s))) }
{
    let name = units.reg(k, s);
    match resource_named(id, name) {
        Some(Resource::Chan { chan }) => {
            Ending::Quietly(at_chan(units, k, name, chan, Action::TellDest, Some(d)))
        }
        Some(Resource::Timer { timer }) => {
            let (used, value) = (units.timers.used(timer), units.timers.value(timer));
            Ending::Quietly(units.tell(k, d, name, used, value))
        }
        Some(Resource::Clock { clock }) => {
            let (on, divider) = (units.clocks.used(clock), units.clocks.div(clock));
            Ending::Quietly(units.tell(k, d, name, on, divider))
        }
        Some(Resource::Port { port }) => {
            at_port(units, k, name, port, Takes::Into(d), Ask::GetValue, pins)
        }
        _ => Ending::Quietly(illegal(name)),
    }
}

// A timer takes a value for its condition, where it is in use.
fn set_value(units: &mut Units, timer: u8, value: u32) -> bool
    requires { timer < TIMERS }
    ensures { IsChanged result units.old units.new (timer_becomes units.old timer (with_value value (timer_of units.old timer))) }
{
    units.timers.set_value(timer, value).is_ok()
}

// A clock block takes a divider, where it may.
fn set_divider(units: &mut Units, clock: u8, divider: u32) -> bool
    requires { clock < CLOCK_BLOCKS }
    ensures { IsChanged result units.old units.new (clock_becomes units.old clock (divided_by divider (clock_of units.old clock))) }
{
    units.clocks.set_div(clock, divider).is_ok()
}
