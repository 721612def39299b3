//! The rows on events and interrupts. See docs/EVENTS.md.
ghost use Rattle.std.specs.Prelude.{◌≡◌, ◌<◌, IfSome, IsTrue};
ghost use Rattle.xs_base.specs.declared.numbers.TheConstants.{THREADS};
ghost use Rattle.xs_model.specs.Enabling.{changed};
ghost use Rattle.event_unit.specs.Ready.{IsRes};
ghost use Rattle.step_model.specs.Effect.{Setting, reg, goes_on};
ghost use Rattle.step_model.specs.Named.{resource_named};
ghost use Rattle.step_model.specs.EventRows.{eventful, with_changed, sets_events, enables, clears, waits_where};
ghost use Rattle.step_model.specs.ResourceRows.{resources_row};
ghost use Rattle.xs_instructions.specs.Instr.{ResourcesInRange};
ghost use Rattle.core_units.specs.Units.{Ends};
ghost use Rattle.core_units.specs.Named.{IsWithin};
ghost use Rattle.resource_rows.specs.Changed.{IsChanged};
ghost use Rattle.resource_rows.specs.Changes.{makes, IsChange};
ghost use Rattle.resource_rows.specs.Resources.{is_on_events};

use bitflags::Flags;
use core_units::{Units, resource_named};
use event_unit::Events;
use xs_instructions::ResIns;
use xs_model::{EEBLE, INENB, Outcome, Res, Resource, Status, WAITING, Wait};

// The status bits of a thread that takes no events any more, and of one that waits for an event.
const CLEARED: Status = Status {
    bits: EEBLE | INENB,
};

const WAITS: Status = Status {
    bits: EEBLE | WAITING,
};

/// What a row changes of what a resource gives.
#[derive(Clone, Copy)]
pub(crate) enum Change {
    Vector(u32),
    Environment(u32),
    /// It gives interrupts, or events.
    Interrupts(bool),
    /// It is enabled for a thread, or disabled.
    Enabled(u8, bool),
}

impl Change {
    fn make(self, events: &mut Events, r: Res)
        requires resource { IsRes r }
        requires change { IsChange self }
        ensures { events.new ≡ changed events.old r (makes self) }
    {
        match self {
            Change::Vector(vector) => events.set_vector(r, vector),
            Change::Environment(environment) => events.set_env(r, environment),
            Change::Interrupts(on) => events.set_mode(r, on),
            Change::Enabled(thread, on) => events.enable(r, thread, on),
        }
    }
}

/// A row on the events of a resource or of thread k.
#[inline]
pub(crate) fn on_events(units: &mut Units, id: u16, k: u8, ins: ResIns) -> Outcome
    requires thread { k < THREADS }
    requires range { ResourcesInRange ins }
    requires part { IsTrue (is_on_events ins) }
    ensures row { (here : Setting) → here.id ≡ id → Ends result units.old units.new (resources_row here units.old k ins) }
{
    match ins {
        ResIns::Setv(s) => {
            let vector = units.reg(k, 11);
            set_events(units, id, k, s, Change::Vector(vector))
        }
        ResIns::Setev(s) => {
            let environment = units.reg(k, 11);
            set_events(units, id, k, s, Change::Environment(environment))
        }
        ResIns::Eeu(s) => enable(units, id, k, s, true),
        ResIns::Edu(s) => enable(units, id, k, s, false),
        ResIns::Eet(x, s) => {
            let on = units.reg(k, x) != 0;
            enable(units, id, k, s, on)
        }
        ResIns::Eef(x, s) => {
            let on = units.reg(k, x) == 0;
            enable(units, id, k, s, on)
        }
        ResIns::Clre => {
            clre(units, k);
            Outcome::Done
        }
        ResIns::Waiteu => wait_where(units, k, true),
        ResIns::Waitet(x) => {
            let holds = units.reg(k, x) != 0;
            wait_where(units, k, holds)
        }
        ResIns::Waitef(x) => {
            let holds = units.reg(k, x) == 0;
            wait_where(units, k, holds)
        }
        _ => unreachable!(),
    }
}

// ---- What a resource gives

// Changes what the channel end, the timer or the port gives that register s names.
fn set_events(units: &mut Units, id: u16, k: u8, s: u8, change: Change) -> Outcome
    requires thread { k < THREADS }
    requires source { s < 12 }
    requires change { IsChange change }
    ensures { Ends result units.old units.new (sets_events units.old k (reg units.old k s) (makes change) (resource_named id (reg units.old k s))) }
{
    let name = units.reg(k, s);
    let resource = eventful(units, resource_named(id, name));
    let made = change_given(units, resource, change);
    units.end(k, name, made)
}

// Enables it for thread k, or disables it.
fn enable(units: &mut Units, id: u16, k: u8, s: u8, on: bool) -> Outcome
    requires thread { k < THREADS }
    requires source { s < 12 }
    ensures { Ends result units.old units.new (enables units.old k (reg units.old k s) on (resource_named id (reg units.old k s))) }
{
    set_events(units, id, k, s, Change::Enabled(k, on))
}

/// What may give events and is in use.
pub(crate) fn eventful(units: &Units, named: Option<Resource>) -> Option<Res>
    requires { IfSome named IsWithin }
    ensures value { result ≡ eventful units.now named }
    ensures within { IfSome result IsRes }
{
    match named {
        Some(Resource::Chan { chan }) if units.chans.used(chan) => Some(Res::Chan(chan)),
        Some(Resource::Timer { timer }) if units.timers.used(timer) => Some(Res::Timer(timer)),
        Some(Resource::Port { port }) if units.ports.on(port) => Some(Res::Port(port)),
        _ => None,
    }
}

/// Changes what it gives, where there is something that gives it.
pub(crate) fn change_given(units: &mut Units, resource: Option<Res>, change: Change) -> bool
    requires resource { IfSome resource IsRes }
    requires change { IsChange change }
    ensures { IsChanged result units.old units.new (with_changed units.old (makes change) resource) }
{
    let Some(r) = resource else {
        return false;
    };
    change.make(&mut units.events, r);
    true
}

// ---- The thread's own events

// Thread k takes no more events, disables what it enabled and gives events, and goes on.
fn clre(units: &mut Units, k: u8)
    requires { k < THREADS }
    ensures { units.new ≡ goes_on (clears units.old k) k }
{
    units.threads[k as usize].sr.remove(CLEARED);
    units.events.clear(k);
    units.go_on(k);
}

// Thread k takes events and waits for one, where something holds; else it goes on.
fn wait_where(units: &mut Units, k: u8, holds: bool) -> Outcome
    requires { k < THREADS }
    ensures { Ends result units.old units.new (waits_where units.old k holds) }
{
    if !holds {
        units.go_on(k);
        return Outcome::Done;
    }
    units.threads[k as usize].sr.insert(WAITS);
    Outcome::Pause(Wait::Choice)
}
