//! The threads that may issue.
ghost use Rattle.std.specs.Prelude.{◌≡◌, ℕ, ◌<◌, ◌≤◌, ◌&&◌, true, ◌↔◌, is_some, slice_index_or};
ghost use Rattle.xs_base.specs.declared.numbers.TheConstants.{THREADS};
ghost use Rattle.xs_model.specs.Masks.{in_mask};
ghost use Rattle.xs_model.specs.Status.{no_status};
ghost use Rattle.xs_model.specs.Threads.{fresh_thread};
ghost use Rattle.xs_model.specs.Record.{CoreRec, SlotsRec, EnabledRec, thread_of};
ghost use Rattle.xs_model.specs.Waits.{holds};
ghost use Rattle.xs_model.specs.Choices.{choice, choice_by, ready_in};
ghost use Rattle.xs_model.specs.Picks.{goes_or_holds, is_paused};
ghost use Rattle.sync_locks.specs.Syncs.{SyncsRec};
ghost use Rattle.event_unit.specs.Ready.{AreReady, choice_of};
ghost use Rattle.core_waits.specs.Parts.{HasParts, IsFor, AreAlike, AreAble, may_choose};

use crate::slaves::all_in;
use bitflags::Flags;
use buffered_ports::Ports;
use chan_ends::ChanEnds;
use event_unit::{Choice, Events, Ready};
use sync_locks::Syncs;
use thread_slots::{Slots, no_threads, with_able};
use timers_clocks::Timers;
use xs_base::numbers::THREADS;
use xs_model::{EEBLE, IEBLE, Run, Status, Thread, Wait};

// The status bits by which a thread takes events and interrupts.
const TAKES: Status = Status {
    bits: EEBLE | IEBLE,
};

/// The threads that would issue if they were rested, and when that holds.
#[derive(Clone, Copy)]
pub struct Able {
    /// Bit k for thread k.
    pub threads: u8,
    /// The slot in which it was found, the first for which it is known.
    pub slot: u32,
    /// The last slot for which it is known: up to it the conditions of timers hold alike, and the divider stays free or not.
    pub until: u32,
}

impl Able {
    /// The threads that would issue in a slot if they were rested: those that go, those whose pause's condition holds, and
    /// those that are paused and may take an event or an interrupt. See docs/MACHINE.md.
    pub fn find(
        threads: &[Thread; 8],
        slots: &Slots,
        chans: &ChanEnds,
        timers: &Timers,
        syncs: &Syncs,
        ports: &Ports,
        events: &Events,
        slot: u32,
    ) -> Able
        ensures value { (core : CoreRec) → HasParts core threads.now slots.now chans.now timers.now syncs.now ports.now events.now → AreAble core result }
        ensures now { IsFor result slot }
    {
        let going = going(threads, slots, chans, timers, syncs, ports, slot);
        let choosing = choosing(threads, chans, timers, ports, events, slot);
        Able {
            threads: going | choosing,
            slot,
            until: known_until(slots, timers, slot),
        }
    }

    /// Whether it is known for a slot.
    #[inline]
    pub fn is_for(&self, slot: u32) -> bool
        ensures value { (result ≡ true) ↔ IsFor self.now slot }
    {
        self.slot <= slot && slot <= self.until
    }
}

// The last slot up to which what threads wait for of the slot alone holds as in this one.
fn known_until(slots: &Slots, timers: &Timers, slot: u32) -> u32
    ensures alike { (later : ℕ) → slot ≤ later → later ≤ result → AreAlike timers.now slots.now.division slot later }
    ensures now { slot ≤ result }
{
    slots.divider_until(slot).min(timers.alike_until(slot))
}

/// What thread `k`, 0 to 7, takes in a slot, whose status is this: an event, an interrupt or nothing. See docs/EVENTS.md.
#[inline]
pub fn taken(
    k: u8,
    sr: Status,
    chans: &ChanEnds,
    timers: &Timers,
    ports: &Ports,
    events: &Events,
    slot: u32,
) -> Option<Choice>
    requires { k < THREADS }
    ensures value { (core : CoreRec) → core.chans ≡ chans.now → core.timers ≡ timers.now → core.ports ≡ ports.now →
        result ≡ choice_of (choice_by k sr (ready_in core slot) events.now) }
{
    if !sr.intersects(TAKES) {
        return None;
    }
    events.choose(k, sr, ready(chans, timers, ports, slot))
}

/// What is ready in a slot, for `Events::choose`. See docs/EVENTS.md.
pub fn ready(chans: &ChanEnds, timers: &Timers, ports: &Ports, slot: u32) -> Ready
    ensures value { (core : CoreRec) → core.chans ≡ chans.now → core.timers ≡ timers.now → core.ports ≡ ports.now → AreReady result (ready_in core slot) }
{
    Ready {
        chans: chans.ready(),
        timers: timers.ready(slot),
        ports: ports.ready(),
    }
}

// The threads that go, or whose pause's condition holds.
fn going(
    threads: &[Thread; 8],
    slots: &Slots,
    chans: &ChanEnds,
    timers: &Timers,
    syncs: &Syncs,
    ports: &Ports,
    slot: u32,
) -> u8
    ensures { (core : CoreRec) (events : EnabledRec) → HasParts core threads.now slots.now chans.now timers.now syncs.now ports.now events →
        (k : ℕ) → k < THREADS → in_mask result k ≡ goes_or_holds core slot (thread_of core k).run }
{
    let mut going = no_threads();
    for k in 0..THREADS {
        if goes(
            threads[k as usize].run,
            threads,
            slots,
            chans,
            timers,
            syncs,
            ports,
            slot,
        ) {
            going = with_able(going, k);
        }
    }
    going
}

// The threads that are paused and may take an event or an interrupt.
fn choosing(
    threads: &[Thread; 8],
    chans: &ChanEnds,
    timers: &Timers,
    ports: &Ports,
    events: &Events,
    slot: u32,
) -> u8
    ensures { (core : CoreRec) (slots : SlotsRec) (syncs : SyncsRec) → HasParts core threads.now slots chans.now timers.now syncs ports.now events.now →
        (k : ℕ) → k < THREADS → in_mask result k ≡ (is_paused (thread_of core k).run && is_some (choice core slot k)) }
{
    let may = allowing(threads);
    if may == 0 {
        return 0;
    }
    may & events.wake_mask(&statuses(threads), ready(chans, timers, ports, slot))
}

// The threads that are paused and whose status lets events or interrupts through.
fn allowing(threads: &[Thread; 8]) -> u8
    ensures { (k : ℕ) → k < THREADS → in_mask result k ≡ may_choose (slice_index_or threads.now k fresh_thread) }
{
    let mut may = no_threads();
    for k in 0..THREADS {
        if may_choose(&threads[k as usize]) {
            may = with_able(may, k);
        }
    }
    may
}

fn may_choose(thread: &Thread) -> bool
    ensures { result ≡ may_choose thread.now }
{
    matches!(thread.run, Run::Paused(_)) && thread.sr.intersects(TAKES)
}

fn statuses(threads: &[Thread; 8]) -> [Status; 8]
    ensures { (k : ℕ) → k < THREADS → slice_index_or result k no_status ≡ (slice_index_or threads.now k fresh_thread).sr }
{
    [
        threads[0].sr,
        threads[1].sr,
        threads[2].sr,
        threads[3].sr,
        threads[4].sr,
        threads[5].sr,
        threads[6].sr,
        threads[7].sr,
    ]
}

// Whether a thread goes, or its pause's condition holds.
fn goes(
    run: Run,
    threads: &[Thread; 8],
    slots: &Slots,
    chans: &ChanEnds,
    timers: &Timers,
    syncs: &Syncs,
    ports: &Ports,
    slot: u32,
) -> bool
    ensures { (core : CoreRec) (events : EnabledRec) → HasParts core threads.now slots.now chans.now timers.now syncs.now ports.now events →
        result ≡ goes_or_holds core slot run }
{
    match run {
        Run::Going => true,
        Run::Paused(wait) => holds(wait, threads, slots, chans, timers, syncs, ports, slot),
        _ => false,
    }
}

// Whether what pauses a thread holds.
fn holds(
    wait: Wait,
    threads: &[Thread; 8],
    slots: &Slots,
    chans: &ChanEnds,
    timers: &Timers,
    syncs: &Syncs,
    ports: &Ports,
    slot: u32,
) -> bool
    ensures { (core : CoreRec) (events : EnabledRec) → HasParts core threads.now slots.now chans.now timers.now syncs.now ports.now events →
        result ≡ holds core slot wait }
{
    match wait {
        Wait::Room { chan, count } => chans.has_room(chan, count),
        Wait::Tokens { chan, count } => chans.has_tokens(chan, count),
        Wait::Timer { timer } => timers.holds(timer, slot),
        Wait::Lock { lock } => syncs.owner(lock).is_none(),
        Wait::Slaves { sync } => all_in(threads, syncs.slaves(sync)),
        Wait::PortFull { port } => ports.is_full(port),
        Wait::PortEmpty { port } => !ports.is_full(port),
        Wait::PortIdle { port } => ports.is_idle(port),
        Wait::Choice => false,
        Wait::Divider => slots.divider_free(slot),
    }
}
