//! Which thread issues in a slot, and what it takes.
ghost use Rattle.std.specs.Prelude.{◌≡◌, ℕ, ◌<◌, IfSome};
ghost use Rattle.xs_base.specs.declared.numbers.TheConstants.{THREADS};
ghost use Rattle.xs_model.specs.Picks.{is_able, picked};
ghost use Rattle.xs_model.specs.Masks.{in_mask};
ghost use Rattle.xs_model.specs.Choices.{choice};
ghost use Rattle.quiet_model.specs.Stirs.{some_eligible};
ghost use Rattle.event_unit.specs.Ready.{choice_of};
ghost use Rattle.core_waits.specs.Parts.{IsFor, AreAble};
ghost use Rattle.processor.specs.NextIssue.{next_issue};

use crate::processor::Processor;
use core_units::Units;
use core_waits::{Able, taken};
use event_unit::Choice;

/// Who issues in a slot, and what it takes. See docs/MACHINE.md.
#[derive(Clone, Copy)]
pub struct NextIssue {
    /// The thread, 0 to 7.
    pub thread: u8,
    /// The event or the interrupt that it takes: None where it executes the instruction where it is, or traps since none stands
    /// there.
    pub takes: Option<Choice>,
}

impl Processor {
    /// The thread that issues in a slot, 0 to 7: None exactly where nobody may. See docs/MACHINE.md.
    pub fn picked(&mut self, slot: u32) -> Option<u8>
        ensures value { result ≡ picked self.old slot }
        ensures within { IfSome result (λ k. k < THREADS) }
        ensures unchanged { self.new ≡ self.old }
    {
        let able = self.able(slot);
        pick(&self.units, able, slot)
    }

    /// Who issues in a slot, if `issue` comes next, and what it takes: None exactly where nobody may issue. It takes no memory. See
    /// docs/MACHINE.md.
    pub fn next_issue(&mut self, slot: u32) -> Option<NextIssue>
        ensures value { result ≡ next_issue self.old slot }
        ensures within { IfSome result (λ next. next.thread < THREADS) }
        ensures unchanged { self.new ≡ self.old }
    {
        let thread = self.picked(slot)?;
        Some(NextIssue {
            thread,
            takes: self.choice(thread, slot),
        })
    }

    /// The threads that may issue in a slot but for the four slots of rest that lie between two issues of one thread: bit k for thread k,
    /// 0 to 7. It takes no memory. See docs/MACHINE.md.
    pub fn able_threads(&mut self, slot: u32) -> u8
        ensures value { (k : ℕ) → k < THREADS → in_mask result k ≡ is_able self.old k slot }
        ensures unchanged { self.new ≡ self.old }
    {
        self.able(slot)
    }

    /// Whether some thread may issue in a slot. It costs little where it is known which threads are able. It takes no memory.
    #[inline]
    pub fn may_issue(&mut self, slot: u32) -> bool
        ensures value { result ≡ some_eligible self.old slot }
        ensures unchanged { self.new ≡ self.old }
    {
        let able = self.able(slot);
        some_may_issue(&self.units, able, slot)
    }

    // The threads that may issue in a slot but for the four slots of rest: bit k for thread k.
    fn able(&mut self, slot: u32) -> u8
        ensures value { (k : ℕ) → k < THREADS → in_mask result k ≡ is_able self.old k slot }
        ensures unchanged { self.new ≡ self.old }
    {
        if let Some(known) = self.able
            && known.is_for(slot)
        {
            return known.threads;
        }
        self.find_able(slot)
    }

    // The same where it is not known for the slot. It stands apart, so that slots in which it is known are quick.
    #[inline(never)]
    fn find_able(&mut self, slot: u32) -> u8
        ensures value { (k : ℕ) → k < THREADS → in_mask result k ≡ is_able self.old k slot }
        ensures unchanged { self.new ≡ self.old }
    {
        let able = found_able(&self.units, slot);
        self.able = Some(able);
        able.threads
    }

    /// What thread k takes in a slot: an event, an interrupt or nothing.
    #[inline]
    pub(crate) fn choice(&self, k: u8, slot: u32) -> Option<Choice>
        requires { k < THREADS }
        ensures { result ≡ choice_of (choice self.now slot k) }
    {
        choice_in(&self.units, k, slot)
    }
}

// The thread that issues in a slot, where these are able.
#[inline]
fn pick(units: &Units, able: u8, slot: u32) -> Option<u8>
    requires able { (k : ℕ) → k < THREADS → in_mask able k ≡ is_able units.now k slot }
    ensures value { result ≡ picked units.now slot }
    ensures within { IfSome result (λ k. k < THREADS) }
{
    units.slots.pick(able, slot)
}

// Whether some thread may issue in a slot, where these are able.
#[inline]
fn some_may_issue(units: &Units, able: u8, slot: u32) -> bool
    requires { (k : ℕ) → k < THREADS → in_mask able k ≡ is_able units.now k slot }
    ensures { result ≡ some_eligible units.now slot }
{
    units.slots.some_rested(able, slot)
}

// Which threads are able in a slot, found anew.
pub(crate) fn found_able(units: &Units, slot: u32) -> Able
    ensures value { AreAble units.now result }
    ensures now { IsFor result slot }
{
    Able::find(
        &units.threads,
        &units.slots,
        &units.chans,
        &units.timers,
        &units.syncs,
        &units.ports,
        &units.events,
        slot,
    )
}

// What a thread takes in a slot.
#[inline]
fn choice_in(units: &Units, k: u8, slot: u32) -> Option<Choice>
    requires { k < THREADS }
    ensures { result ≡ choice_of (choice units.now slot k) }
{
    let sr = units.threads[k as usize].sr;
    taken(
        k,
        sr,
        &units.chans,
        &units.timers,
        &units.ports,
        &units.events,
        slot,
    )
}
