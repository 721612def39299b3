//! The slots in which no thread issues.
ghost use Rattle.std.specs.Prelude.{◌≡◌, ◌≤◌, ◌+◌, false, IsTrue};
ghost use Rattle.core_waits.specs.Parts.{IsFor, AreAble};
ghost use Rattle.quiet_model.specs.Slots.{IsFirst};
ghost use Rattle.quiet_model.specs.Stirs.{some_eligible};
ghost use Rattle.quiet_laws.specs.Undisturbed.{IsWhole};
ghost use Rattle.processor.specs.Knows.{IsKnown};

use crate::picks::found_able;
use crate::processor::Processor;
use core_units::Units;
use core_waits::Able;
use quiet_model::first_slots;

impl Processor {
    /// The first slot of `from` to `bound - 1` in which some thread may issue, if until then nothing changes but the slot, and
    /// `bound` where none may in any of them. It takes no memory. See docs/MACHINE.md.
    pub fn eligible_from(&self, from: u32, bound: u32) -> u32
        ensures first { IsFirst (some_eligible self.now) from bound result }
    {
        search(&self.units, self.able, from, bound)
    }

    /// It has all ports, and the last issues of all threads. It does nothing.
    #[inline]
    pub fn keeps(&self)
        ensures whole { IsWhole self.now }
    {
        keeps(&self.units);
    }
}

// Units have all ports, and the last issues of all threads. It does nothing.
#[inline]
fn keeps(units: &Units)
    ensures whole { IsWhole units.now }
{
    let _ready = units.ports.ready();
    let _last = units.slots.last(0);
}

// The first slot of `from` to `bound - 1` in which some thread may issue, where this is known of the threads that are able. It
// goes on from where what is known of them ends: each timer's condition changes a few times in all slots, and the divider
// becomes free once.
fn search(units: &Units, known: Option<Able>, from: u32, bound: u32) -> u32
    requires { IsKnown units.now known }
    ensures { IsFirst (some_eligible units.now) from bound result }
{
    let mut able = known;
    let mut at = from;
    while at < bound {
        let here = able_at(units, able, at);
        able = Some(here);
        let end = bound.min(here.until.saturating_add(1));
        let first = first_rested(units, here, at, end);
        if first < end {
            return first;
        }
        at = end;
    }
    bound
}

// Which threads are able in a slot: what is known, where it is for the slot, or else what is found anew.
fn able_at(units: &Units, known: Option<Able>, slot: u32) -> Able
    requires { IsKnown units.now known }
    ensures value { AreAble units.now result }
    ensures now { IsFor result slot }
{
    match known {
        Some(able) if able.is_for(slot) => able,
        _ => found_able(units, slot),
    }
}

// The first slot of `from` to `bound - 1` in which some thread may issue, where in all of them these are able.
fn first_rested(units: &Units, able: Able, from: u32, bound: u32) -> u32
    requires value { AreAble units.now able }
    requires now { IsFor able from }
    requires known { bound ≤ able.until + 1 }
    ensures { IsFirst (some_eligible units.now) from bound result }
{
    first_slots();
    units.slots.rested_from(able.threads, from, bound)
}
