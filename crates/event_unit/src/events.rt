//! `Events`, what of a core gives events and interrupts, and to which thread.
ghost use Rattle.std.specs.Prelude.{ℕ, ◌≡◌, ◌≢◌, ◌<◌, ◌↔◌, true, None, is_some, map, slice_index_or};
ghost use Rattle.xs_base.specs.declared.numbers.TheConstants.{THREADS};
ghost use Rattle.xs_model.specs.Masks.{in_mask};
ghost use Rattle.xs_model.specs.Status.{no_status};
ghost use Rattle.xs_model.specs.Record.{none_enabled};
ghost use Rattle.xs_model.specs.Enabling.{enabling_of, with_enabling, changed, enabled_for, with_vector, with_environment, in_mode, forgotten, cleared_by, without_thread};
ghost use Rattle.xs_model.specs.Choices.{ReadyRec, choice_by, choice_in_mode};
ghost use Rattle.event_unit.specs.Marks.{HasThread};
ghost use Rattle.event_unit.specs.Ready.{AreReady, IsRes, choice_of};
ghost use Rattle.event_unit.specs.States.{enable_state, enable_of, AreEnableStates};

use crate::answers::{Choice, Ready};
use crate::enabling::Enabling;
use crate::group::Group;
use crate::state::EnableState;
use bitflags::Flags;
use core_state::Status;
use std::marker::Model;
use xs_base::numbers::THREADS;
use xs_model::{EEBLE, IEBLE, Res};

// The status bits that let events and interrupts through.
const EVENTS: Status = Status { bits: EEBLE };

const INTERRUPTS: Status = Status { bits: IEBLE };

/// What the 32 channel ends, 10 timers and 29 ports of a core give where they are ready: an event or an interrupt, to
/// the thread that enabled it, with a vector and an environment. Contracts see an `EnabledRec` of
/// `Rattle.xs_model.specs.Record`. See docs/EVENTS.md.
#[derive(Drop)]
pub struct Events {
    chans: Group<32>,
    timers: Group<10>,
    ports: Group<29>,
}

impl Model for Events {
    ghost use Rattle.xs_model.specs.Record.{EnabledRec};

    ghost Value = { EnabledRec };

    ghost view = { λ events. record { chans = events.chans; timers = events.timers; ports = events.ports } };
}

impl Events {
    /// Events at the start: nothing is enabled, every vector and environment is 0, and all would give events.
    pub fn new() -> Events
        ensures none { result ≡ none_enabled }
    {
        Events {
            chans: Group::new(),
            timers: Group::new(),
            ports: Group::new(),
        }
    }

    /// Enables a resource for thread `th`, 0 to 7, where `on`, whoever enabled it before; else disables it. What it gives
    /// stays set. See docs/EVENTS.md.
    pub fn enable(&mut self, r: Res, th: u8, on: bool)
        requires resource { IsRes r }
        requires thread { th < THREADS }
        ensures after { self.new ≡ changed self.old r (enabled_for th on) }
    {
        let thread = if on { Some(th) } else { None };
        let entry = self.get(r).with_thread(thread);
        self.set(r, entry);
    }

    /// Sets a resource's vector, the address of its handler. See docs/EVENTS.md.
    pub fn set_vector(&mut self, r: Res, v: u32)
        requires { IsRes r }
        ensures after { self.new ≡ changed self.old r (with_vector v) }
    {
        let entry = self.get(r).with_vector(v);
        self.set(r, entry);
    }

    /// Sets a resource's environment, which its handler finds in ed. See docs/EVENTS.md.
    pub fn set_env(&mut self, r: Res, v: u32)
        requires { IsRes r }
        ensures after { self.new ≡ changed self.old r (with_environment v) }
    {
        let entry = self.get(r).with_env(v);
        self.set(r, entry);
    }

    /// Makes a resource give interrupts, or else events. See docs/EVENTS.md.
    pub fn set_mode(&mut self, r: Res, interrupt: bool)
        requires { IsRes r }
        ensures after { self.new ≡ changed self.old r (in_mode interrupt) }
    {
        let entry = self.get(r).in_mode(interrupt);
        self.set(r, entry);
    }

    /// Forgets all that was set of a resource: it is disabled, its vector and environment are 0, and it would give
    /// events. See docs/EVENTS.md.
    pub fn forget(&mut self, r: Res)
        requires { IsRes r }
        ensures after { self.new ≡ forgotten self.old r }
    {
        self.set(r, Enabling::none());
    }

    /// Disables what thread `th`, 0 to 7, enabled and gives events; what gives interrupts stays. See docs/EVENTS.md.
    pub fn clear(&mut self, th: u8)
        requires { th < THREADS }
        ensures after { self.new ≡ cleared_by th self.old }
    {
        self.chans.clear(th);
        self.timers.clear(th);
        self.ports.clear(th);
    }

    /// Disables all that thread `th`, 0 to 7, enabled: it is freed. See docs/EVENTS.md.
    pub fn drop_thread(&mut self, th: u8)
        requires { th < THREADS }
        ensures after { self.new ≡ without_thread th self.old }
    {
        self.chans.drop_thread(th);
        self.timers.drop_thread(th);
        self.ports.drop_thread(th);
    }

    /// What thread `th`, 0 to 7, takes, whose status is `sr`: interrupts come before events, and in each the channel
    /// ends come before the timers and those before the ports, each by ascending number. `None` comes exactly where
    /// nothing that the status lets through is ready and enabled by the thread. See docs/EVENTS.md.
    pub fn choose(&self, th: u8, sr: Status, ready: Ready) -> Option<Choice>
        requires { th < THREADS }
        ensures value { (rec : ReadyRec) → AreReady ready rec → result ≡ choice_of (choice_by th sr rec self.now) }
        ensures none { (rec : ReadyRec) → AreReady ready rec → result ≡ None ↔ (choice_by th sr rec self.now ≡ None) }
    {
        if sr.intersects(INTERRUPTS)
            && let Some(entry) = self.first(th, true, ready)
        {
            return Some(entry.choice());
        }
        if sr.intersects(EVENTS)
            && let Some(entry) = self.first(th, false, ready)
        {
            return Some(entry.choice());
        }
        None
    }

    /// The threads for which there is a choice, bit k for thread k, whose statuses are `sr`. See docs/EVENTS.md.
    pub fn wake_mask(&self, sr: &[Status; 8], ready: Ready) -> u8
        ensures value { (rec : ReadyRec) → AreReady ready rec → (k : ℕ) → k < THREADS →
            in_mask result k ≡ is_some (choice_by k (slice_index_or sr.now k no_status) rec self.now) }
    {
        let mut mask = 0;
        for k in 0..THREADS {
            if self.has_choice(k, sr[k as usize], ready) {
                mask = with_thread(mask, k);
            }
        }
        mask
    }

    /// What a snapshot keeps of what the channel ends, the timers and the ports give, each by their numbers. It takes no memory.
    /// See docs/SNAPSHOTS.md.
    pub fn state(&self) -> ([EnableState; 32], [EnableState; 10], [EnableState; 29])
        ensures chans { result.0 ≡ map enable_state self.now.chans }
        ensures timers { result.1 ≡ map enable_state self.now.timers }
        ensures ports { result.2 ≡ map enable_state self.now.ports }
    {
        let chans = self.chans.entries().map(Enabling::state);
        let timers = self.timers.entries().map(Enabling::state);
        let ports = self.ports.entries().map(Enabling::state);
        (chans, timers, ports)
    }

    /// What the channel ends, the timers and the ports give as a snapshot keeps it, each by their numbers. It takes no memory.
    /// See docs/SNAPSHOTS.md.
    pub fn of_state(
        chans: &[EnableState; 32],
        timers: &[EnableState; 10],
        ports: &[EnableState; 29],
    ) -> Events
        requires chans { AreEnableStates chans.now }
        requires timers { AreEnableStates timers.now }
        requires ports { AreEnableStates ports.now }
        ensures value { result ≡ record { chans = map enable_of chans.now; timers = map enable_of timers.now; ports = map enable_of ports.now } }
    {
        Events {
            chans: Group::of_state(chans),
            timers: Group::of_state(timers),
            ports: Group::of_state(ports),
        }
    }

    // What a resource gives.
    fn get(&self, r: Res) -> Enabling
        requires { IsRes r }
        ensures value { result ≡ enabling_of self.now r }
        ensures thread { HasThread result }
    {
        match r {
            Res::Chan(c) => self.chans.get(c),
            Res::Timer(n) => self.timers.get(n),
            Res::Port(p) => self.ports.get(p),
        }
    }

    // Sets what a resource gives.
    fn set(&mut self, r: Res, entry: Enabling)
        requires resource { IsRes r }
        requires thread { HasThread entry }
        ensures { self.new ≡ with_enabling self.old r entry }
    {
        match r {
            Res::Chan(c) => self.chans.set(c, entry),
            Res::Timer(n) => self.timers.set(n, entry),
            Res::Port(p) => self.ports.set(p, entry),
        }
    }

    // What comes first of what is ready and gives interrupts, or events, to thread `th`, 0 to 7.
    #[inline]
    fn first(&self, th: u8, interrupt: bool, ready: Ready) -> Option<Enabling>
        requires { th < THREADS }
        ensures { (rec : ReadyRec) → AreReady ready rec → result ≡ choice_in_mode th rec self.now interrupt }
    {
        if let Some(entry) = self.chans.first(th, interrupt, ready.chans) {
            return Some(entry);
        }
        if let Some(entry) = self.timers.first(th, interrupt, ready.timers) {
            return Some(entry);
        }
        self.ports.first(th, interrupt, ready.ports)
    }

    // Whether anything is ready and gives interrupts, or events, to thread `th`, 0 to 7.
    #[inline]
    fn any(&self, th: u8, interrupt: bool, ready: Ready) -> bool
        requires { th < THREADS }
        ensures { (rec : ReadyRec) → AreReady ready rec → result ≡ is_some (choice_in_mode th rec self.now interrupt) }
    {
        self.chans.any(th, interrupt, ready.chans)
            || self.timers.any(th, interrupt, ready.timers)
            || self.ports.any(th, interrupt, ready.ports)
    }

    // Whether thread `th`, 0 to 7, has a choice, whose status is `sr`.
    #[inline]
    fn has_choice(&self, th: u8, sr: Status, ready: Ready) -> bool
        requires { th < THREADS }
        ensures { (rec : ReadyRec) → AreReady ready rec → result ≡ is_some (choice_by th sr rec self.now) }
    {
        if sr.intersects(INTERRUPTS) && self.any(th, true, ready) {
            return true;
        }
        sr.intersects(EVENTS) && self.any(th, false, ready)
    }
}

// A mask with thread `k`, 0 to 7, in it as well.
#[inline]
fn with_thread(mask: u8, k: u8) -> u8
    requires { k < THREADS }
    ensures added { in_mask result k ≡ true }
    ensures others { (j : ℕ) → j ≢ k → in_mask result j ≡ in_mask mask j }
{
    mask | (1 << k)
}
