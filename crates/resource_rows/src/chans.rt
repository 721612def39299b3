//! The rows on channel ends. See docs/LINKS.md.
ghost use Rattle.std.specs.Prelude.{◌≡◌, ◌<◌, IfSome};
ghost use Rattle.xs_base.specs.declared.numbers.TheConstants.{THREADS, CHAN_ENDS};
ghost use Rattle.xs_model.specs.Record.{thread_of, with_thread};
ghost use Rattle.net_model.specs.Chans.{chan_named, free_chan};
ghost use Rattle.chan_ends.specs.Ends.{with_got};
ghost use Rattle.step_model.specs.Effect.{reg, after_it, pauses_at};
ghost use Rattle.step_model.specs.ResourceRows.{at_chan, on_named};
ghost use Rattle.core_units.specs.Units.{Ends};
ghost use Rattle.resource_rows.specs.Found.{name_of_got};
ghost use Rattle.resource_rows.specs.Actions.{does, waits, takes};

use crate::actions::Action;
use chan_ends::{ChanEnds, Take};
use core_units::{Units, chan_named, illegal};
use xs_base::chan_id;
use xs_model::traps::RESOURCE_DEPENDENCY;
use xs_model::{Outcome, Wait};

/// A row on the channel end that register s names. The word that is found goes into a register, where one is to
/// have it.
pub(crate) fn on_chan(
    units: &mut Units,
    id: u16,
    k: u8,
    s: u8,
    action: Action,
    into: Option<u8>,
) -> Outcome
    requires thread { k < THREADS }
    requires source { s < 12 }
    requires target { IfSome into (λ d. d < 12) }
    ensures { Ends result units.old units.new
        (on_named units.old k (reg units.old k s) (waits action) (does action) (takes into) (chan_named id (reg units.old k s))) }
{
    let name = units.reg(k, s);
    match chan_named(id, name) {
        Some(c) => at_chan(units, k, name, c, action, into),
        None => illegal(name),
    }
}

/// The same on channel end c, which the word `name` names.
pub(crate) fn at_chan(
    units: &mut Units,
    k: u8,
    name: u32,
    c: u8,
    action: Action,
    into: Option<u8>,
) -> Outcome
    requires thread { k < THREADS }
    requires chan { c < CHAN_ENDS }
    requires target { IfSome into (λ d. d < 12) }
    ensures { Ends result units.old units.new (at_chan units.old k name (waits action) (does action) (takes into) c) }
{
    match action.at(&mut units.chans, c) {
        Take::Got(word) => {
            take(units, k, into, word);
            Outcome::Done
        }
        Take::Wait => wait(units, name, action.wait(c)),
        Take::Bad => illegal(name),
    }
}

// The thread takes a word into a register, where one is to have it, and goes on.
fn take(units: &mut Units, k: u8, into: Option<u8>, word: u32)
    requires thread { k < THREADS }
    requires target { IfSome into (λ d. d < 12) }
    ensures { units.new ≡ with_thread units.old k (after_it (takes into word (thread_of units.old k))) }
{
    match into {
        None => units.go_on(k),
        Some(d) => units.go_on_with(k, d, word),
    }
}

/// The thread pauses at what the word `name` names, and traps where another one is paused there.
pub(crate) fn wait(units: &Units, name: u32, wait: Wait) -> Outcome
    ensures { Ends result units.now units.now (pauses_at units.now name wait) }
{
    if units.is_waited_at(wait) {
        Outcome::Trap {
            et: RESOURCE_DEPENDENCY,
            ed: name,
        }
    } else {
        Outcome::Pause(wait)
    }
}

/// Gets the lowest channel end that is not in use: its identifier, or 0 where all are.
pub(crate) fn got_chan(id: u16, chans: &mut ChanEnds) -> u32
    ensures name { result ≡ name_of_got id (free_chan chans.old 0) }
    ensures got { chans.new ≡ with_got chans.old (free_chan chans.old 0) }
{
    match chans.alloc() {
        Some(c) => chan_id(id, c),
        None => 0,
    }
}
