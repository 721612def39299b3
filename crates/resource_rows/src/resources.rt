//! The rows on resources. See docs/THREADS.md and docs/LINKS.md.
ghost use Rattle.std.specs.Prelude.{ℕ, ◌≡◌, ◌<◌, ◌%◌, IsTrue};
ghost use Rattle.xs_base.specs.declared.numbers.TheConstants.{THREADS, CHAN_ENDS, TIMERS};
ghost use Rattle.xs_model.specs.Record.{chan_of, timer_of};
ghost use Rattle.xs_model.specs.Time.{freed_timer};
ghost use Rattle.net_model.specs.Chans.{freed_chan};
ghost use Rattle.xs_instructions.specs.Instr.{ResourcesInRange};
ghost use Rattle.step_model.specs.Effect.{Setting, reg, goes_on_with};
ghost use Rattle.step_model.specs.Named.{resource_named};
ghost use Rattle.step_model.specs.ResourceRows.{resources_row, resource_got, without, without_chan, without_timer, freed, takes_in, puts_out};
ghost use Rattle.core_units.specs.Here.{IsHere, AreBusy};
ghost use Rattle.xs_model.specs.Outside.{LevelsFit};
ghost use Rattle.core_units.specs.Ending.{IsEnding};
ghost use Rattle.core_units.specs.Units.{Ends, EndsWith};
ghost use Rattle.resource_rows.specs.Resources.{is_quiet};
ghost use Rattle.core_units.specs.Named.{IsWithin};
ghost use Rattle.resource_rows.specs.Found.{name_of};
ghost use Rattle.resource_rows.specs.Changed.{IsChanged};

use crate::actions::Action;
use crate::chans::{at_chan, got_chan, on_chan};
use crate::events::on_events;
use crate::locks::{claim, release};
use crate::modes::set_mode;
use crate::ports::{Takes, at_port, on_port, set_clock, set_strobe};
use crate::times::{set_data, take_time, tell_data};
use buffered_ports::Ask;
use core_units::{Ending, Holders, Units, illegal, resource_named};
use xs_base::numbers::{CHAN_END_KIND, LOCK_KIND, SYNCHRONISER_KIND, THREAD_KIND, TIMER_KIND};
use xs_base::{Token, res_id};
use xs_instructions::ResIns;
use xs_model::{Outcome, PinView, Res, Resource};

/// A row on resources, of thread k, 0 to 7, on the node with this id, in a slot, with pins that show these levels from
/// outside. It leaves what the definitions say; how it ends also tells what happens by it. See docs/INSTRUCTIONS.md.
pub fn on_resources<H: Holders>(
    units: &mut Units,
    id: u16,
    slot: u32,
    k: u8,
    pins: &PinView,
    holders: &H,
    ins: ResIns,
) -> Ending
    requires thread { k < THREADS }
    requires range { ResourcesInRange ins }
    requires levels { LevelsFit pins.now.level }
    ensures within { IsEnding result }
    ensures row { (here : Setting) → IsHere id slot pins.now (H.busy holders.now) here → EndsWith result units.old units.new (resources_row here units.old k ins) }
{
    match ins {
        ResIns::In(d, s) => take_in(units, id, slot, k, d, s, pins),
        ResIns::Out(s, x) => put_out(units, id, k, s, x, pins),
        ResIns::Setd(s, x) => set_data(units, id, k, s, x, pins),
        ResIns::Getd(d, s) => tell_data(units, id, k, d, s, pins),
        ResIns::SetcImm(s, u) => set_mode(units, id, k, s, u32::from(u), pins),
        ResIns::Setc(s, x) => {
            let mode = units.reg(k, x);
            set_mode(units, id, k, s, mode, pins)
        }
        ResIns::Inpw(d, s, b) => {
            on_port(units, k, s, Takes::Into(d), Ask::InPart(u32::from(b)), pins)
        }
        ResIns::Outpw(s, x, b) => {
            let ask = Ask::OutPart(units.reg(k, x), u32::from(b));
            on_port(units, k, s, Takes::Nothing, ask, pins)
        }
        ResIns::Inshr(d, s) => on_port(units, k, s, Takes::ShiftedIn(d), Ask::In, pins),
        ResIns::Outshr(s, d) => {
            let ask = Ask::Out(units.reg(k, d));
            on_port(units, k, s, Takes::ShiftedOut(d), ask, pins)
        }
        ResIns::Peek(d, s) => on_port(units, k, s, Takes::Into(d), Ask::Peek, pins),
        ResIns::Endin(d, s) => on_port(units, k, s, Takes::Into(d), Ask::EndIn, pins),
        ResIns::Syncr(s) => on_port(units, k, s, Takes::Nothing, Ask::Sync, pins),
        ResIns::Getts(d, s) => on_port(units, k, s, Takes::Into(d), Ask::Stamp, pins),
        ResIns::Setpt(s, x) => {
            let ask = Ask::Time(units.reg(k, x));
            on_port(units, k, s, Takes::Nothing, ask, pins)
        }
        ResIns::Clrpt(s) => on_port(units, k, s, Takes::Nothing, Ask::NoTime, pins),
        ResIns::Setclk(s, x) => set_clock(units, id, k, s, x, pins),
        ResIns::Setrdy(s, x) => set_strobe(units, k, s, x, pins),
        ResIns::Settw(s, x) => {
            let ask = Ask::Width(units.reg(k, x));
            on_port(units, k, s, Takes::Nothing, ask, pins)
        }
        _ => Ending::Quietly(on_other_resources(units, id, slot, k, holders, ins)),
    }
}

// The rows that no port takes part in, but for those on its events: first those that get and free resources, and those on the
// tokens and the network of channel ends.
fn on_other_resources<H: Holders>(
    units: &mut Units,
    id: u16,
    slot: u32,
    k: u8,
    holders: &H,
    ins: ResIns,
) -> Outcome
    requires thread { k < THREADS }
    requires range { ResourcesInRange ins }
    requires other { IsTrue (is_quiet ins) }
    ensures row { (here : Setting) → here.id ≡ id → here.slot ≡ slot → AreBusy (H.busy holders.now) here → Ends result units.old units.new (resources_row here units.old k ins) }
{
    match ins {
        ResIns::Getr(d, kind) => {
            let name = get(units, id, slot, k, kind);
            units.go_on_with(k, d, name);
            Outcome::Done
        }
        ResIns::Freer(s) => freer(units, id, k, holders, s),
        ResIns::Outt(s, x) => {
            let t = Token::Byte(low_byte(units.reg(k, x)));
            on_chan(units, id, k, s, Action::Put(t), None)
        }
        ResIns::Outct(s, x) => {
            let t = Token::Ctrl(low_byte(units.reg(k, x)));
            on_chan(units, id, k, s, Action::Put(t), None)
        }
        ResIns::OutctImm(s, i) => on_chan(units, id, k, s, Action::Put(Token::Ctrl(i)), None),
        ResIns::Int(d, s) => on_chan(units, id, k, s, Action::TakeByte, Some(d)),
        ResIns::Inct(d, s) => on_chan(units, id, k, s, Action::TakeCtrl, Some(d)),
        ResIns::Chkct(s, x) => {
            let value = units.reg(k, x);
            on_chan(units, id, k, s, Action::Check(value), None)
        }
        ResIns::ChkctImm(s, i) => on_chan(units, id, k, s, Action::Check(u32::from(i)), None),
        ResIns::Testct(d, s) => on_chan(units, id, k, s, Action::Look, Some(d)),
        ResIns::Testwct(d, s) => on_chan(units, id, k, s, Action::LookWord, Some(d)),
        ResIns::Setn(s, x) => {
            let n = units.reg(k, x);
            on_chan(units, id, k, s, Action::SetNet(n), None)
        }
        ResIns::Getn(d, s) => on_chan(units, id, k, s, Action::TellNet, Some(d)),
        _ => on_events(units, id, k, ins),
    }
}

// Gets the lowest free resource of a kind for thread k: its identifier, or 0 where there is none.
fn get(units: &mut Units, id: u16, slot: u32, k: u8, kind: u8) -> u32
    requires { k < THREADS }
    ensures { (here : Setting) → here.id ≡ id → here.slot ≡ slot → (d : ℕ) → goes_on_with units.new k d result ≡ resource_got here units.old k d kind }
{
    match kind {
        TIMER_KIND => name_of(units.timers.get(), kind),
        CHAN_END_KIND => got_chan(id, &mut units.chans),
        SYNCHRONISER_KIND => name_of(units.syncs.get_sync(k), kind),
        THREAD_KIND => name_of(units.get_thread(slot), kind),
        LOCK_KIND => name_of(units.syncs.get_lock(), kind),
        _ => 0,
    }
}

// Frees the resource that register s names.
fn freer<H: Holders>(units: &mut Units, id: u16, k: u8, holders: &H, s: u8) -> Outcome
    requires thread { k < THREADS }
    requires source { s < 12 }
    ensures { (here : Setting) → AreBusy (H.busy holders.now) here →
        Ends result units.old units.new (freed here units.old k (reg units.old k s) (resource_named id (reg units.old k s))) }
{
    let name = units.reg(k, s);
    let Some(resource) = resource_named(id, name) else {
        return illegal(name);
    };
    let freed = !units.is_paused_on(resource) && free(units, k, holders, resource);
    units.end(k, name, freed)
}

// Whether a resource could be freed by thread k, and then it is.
fn free<H: Holders>(units: &mut Units, k: u8, holders: &H, resource: Resource) -> bool
    requires thread { k < THREADS }
    requires within { IsWithin resource }
    ensures { (here : Setting) → AreBusy (H.busy holders.now) here → IsChanged result units.old units.new (without here units.old k resource) }
{
    match resource {
        Resource::Chan { chan } => free_chan(units, chan, holders.is_busy(chan)),
        Resource::Timer { timer } => free_timer(units, timer),
        Resource::Sync { sync } => units.syncs.free_sync(sync, k).is_ok(),
        Resource::Lock { lock } => units.syncs.free_lock(lock).is_ok(),
        Resource::Thread { .. } | Resource::Clock { .. } | Resource::Port { .. } => false,
    }
}

// Frees a channel end, where it may be; `held` says that the switch is at work with it. What was set of its events is
// forgotten.
fn free_chan(units: &mut Units, chan: u8, held: bool) -> bool
    requires { chan < CHAN_ENDS }
    ensures { IsChanged result units.old units.new (without_chan units.old chan (freed_chan held (chan_of units.old chan))) }
{
    if units.chans.free(chan, held).is_err() {
        return false;
    }
    units.events.forget(Res::Chan(chan));
    true
}

// Frees a timer that is in use. What was set of its events is forgotten.
fn free_timer(units: &mut Units, timer: u8) -> bool
    requires { timer < TIMERS }
    ensures { IsChanged result units.old units.new (without_timer units.old timer (freed_timer (timer_of units.old timer))) }
{
    if units.timers.free(timer).is_err() {
        return false;
    }
    units.events.forget(Res::Timer(timer));
    true
}

// A word from the channel end or the port that register s names goes into register d, or the time, where it names a timer;
// or thread k owns the lock that it names.
fn take_in(units: &mut Units, id: u16, slot: u32, k: u8, d: u8, s: u8, pins: &PinView) -> Ending
    requires thread { k < THREADS }
    requires target { d < 12 }
    requires source { s < 12 }
    requires levels { LevelsFit pins.now.level }
    ensures within { IsEnding result }
    ensures row { EndsWith result units.old units.new (takes_in slot units.old k d (reg units.old k s) (resource_named id (reg units.old k s))) }
{
    let name = units.reg(k, s);
    match resource_named(id, name) {
        Some(Resource::Chan { chan }) => {
            Ending::Quietly(at_chan(units, k, name, chan, Action::TakeWord, Some(d)))
        }
        Some(Resource::Timer { timer }) => {
            Ending::Quietly(take_time(units, slot, k, d, name, timer))
        }
        Some(Resource::Lock { lock }) => Ending::Quietly(claim(units, k, d, name, lock)),
        Some(Resource::Port { port }) => {
            at_port(units, k, name, port, Takes::Into(d), Ask::In, pins)
        }
        _ => Ending::Quietly(illegal(name)),
    }
}

// The word of register x goes to the channel end or the port that register s names, or thread k gives up the lock that it
// names.
fn put_out(units: &mut Units, id: u16, k: u8, s: u8, x: u8, pins: &PinView) -> Ending
    requires thread { k < THREADS }
    requires source { s < 12 }
    requires value { x < 12 }
    requires levels { LevelsFit pins.now.level }
    ensures within { IsEnding result }
    ensures row { EndsWith result units.old units.new (puts_out units.old k (reg units.old k s) (reg units.old k x) (resource_named id (reg units.old k s))) }
{
    let (name, word) = (units.reg(k, s), units.reg(k, x));
    match resource_named(id, name) {
        Some(Resource::Chan { chan }) => {
            Ending::Quietly(at_chan(units, k, name, chan, Action::PutWord(word), None))
        }
        Some(Resource::Lock { lock }) => Ending::Quietly(release(units, k, name, lock)),
        Some(Resource::Port { port }) => {
            at_port(units, k, name, port, Takes::Nothing, Ask::Out(word), pins)
        }
        _ => Ending::Quietly(illegal(name)),
    }
}

// The identifier of a resource of a kind, or 0 where there is none.
fn name_of(number: Option<u8>, kind: u8) -> u32
    ensures { result ≡ name_of kind number }
{
    match number {
        Some(number) => res_id(number, kind),
        None => 0,
    }
}

fn low_byte(word: u32) -> u8
    ensures { result ≡ word % 256 }
{
    (word % 256) as u8
}
