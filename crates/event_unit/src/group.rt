//! `Group`, what the resources of one kind give.
ghost use Rattle.std.specs.Prelude.{ℕ, ◌≡◌, ◌<◌, ◌≤◌, Bool, false, Some, is_some, length, map, replicate, slice_set};
ghost use Rattle.xs_base.specs.declared.numbers.TheConstants.{THREADS};
ghost use Rattle.xs_model.specs.Masks.{in_mask};
ghost use Rattle.xs_model.specs.Syncs.{is_thread};
ghost use Rattle.xs_model.specs.Record.{EnablingRec, not_enabled};
ghost use Rattle.xs_model.specs.Enabling.{gives_to, disabled_where};
ghost use Rattle.xs_model.specs.Choices.{first_ready};
ghost use Rattle.event_unit.specs.Marks.{HasThread, entry_at, disabled_in};
ghost use Rattle.event_unit.specs.States.{enable_of, AreEnableStates};

use crate::enabling::Enabling;
use crate::marks::Marks;
use crate::state::EnableState;
use bit_masks::{has_bit, lowest};
use std::marker::Model;

/// What the resources of one kind give, at most 32 of them, by their numbers. Contracts see it as the list of their
/// `EnablingRec`s.
#[derive(Drop)]
pub(crate) struct Group<const N: usize> {
    entries: [Enabling; N],
    marks: Marks,
}

impl<const N: usize> Model for Group<N> {
    ghost use Rattle.std.specs.Prelude.{◌≡◌, ◌≤◌, List, length};
    ghost use Rattle.xs_model.specs.Record.{EnablingRec};

    ghost Value = { List EnablingRec };

    ghost view = { λ group. group.entries };

    ghost use Rattle.event_unit.specs.Marks.{AreMarks};

    ghost invariant = { λ group. (length group.entries ≤ 32) × AreMarks group.marks.enabled group.marks.interrupts group.entries };
}

impl<const N: usize> Group<N> {
    /// The resources of one kind at the start: nothing is set.
    pub(crate) fn new() -> Group<N>
        requires { N ≤ 32 }
        ensures { result ≡ replicate N not_enabled }
    {
        Group {
            entries: [Enabling::none(); N],
            marks: Marks::none(),
        }
    }

    /// The resources of one kind as a snapshot keeps them.
    pub(crate) fn of_state(states: &[EnableState; N]) -> Group<N>
        requires most { N ≤ 32 }
        requires threads { AreEnableStates states.now }
        ensures { result ≡ map enable_of states.now }
    {
        let mut group = Group::new();
        for n in 0..group.count() {
            group.set(n, Enabling::of_state(states[n as usize]));
        }
        group
    }

    /// What each of them gives.
    pub(crate) fn entries(&self) -> &[Enabling; N]
        ensures value { result.now ≡ self.now }
        ensures count { length self.now ≡ N }
    {
        &self.entries
    }

    /// What resource `n` gives.
    pub(crate) fn get(&self, n: u8) -> Enabling
        requires { n < N }
        ensures value { result ≡ entry_at self.now n }
        ensures thread { HasThread result }
        ensures within { n < 32 }
    {
        self.entries[n as usize]
    }

    /// Sets what resource `n` gives.
    pub(crate) fn set(&mut self, n: u8, entry: Enabling)
        requires place { n < N }
        requires thread { HasThread entry }
        ensures { self.new ≡ slice_set self.old n entry }
    {
        let before = self.entries[n as usize];
        self.marks.note(n, &before, &entry);
        self.entries[n as usize] = entry;
    }

    /// Disables what thread `th`, 0 to 7, enabled and gives events.
    pub(crate) fn clear(&mut self, th: u8)
        requires { th < THREADS }
        ensures { self.new ≡ map (disabled_where (gives_to th false)) self.old }
    {
        let events = self.given_to(th, false);
        self.disable(events);
    }

    /// Disables what thread `th`, 0 to 7, enabled.
    pub(crate) fn drop_thread(&mut self, th: u8)
        requires { th < THREADS }
        ensures { self.new ≡ map (disabled_where (λ e. is_thread th e.thread)) self.old }
    {
        let all = self.marks.enabled[th as usize];
        self.disable(all);
    }

    // Disables the resources of a mask.
    fn disable(&mut self, mask: u32)
        ensures { (test : EnablingRec → Bool) → ((n : ℕ) → n < N → in_mask mask n ≡ test (entry_at self.old n)) → self.new ≡ map (disabled_where test) self.old }
    {
        let count = self.count();
        if mask != 0 {
            for n in 0..count {
                self.disable_in(mask, n);
            }
        }
    }

    // Disables resource `n` if the mask has it.
    #[inline]
    fn disable_in(&mut self, mask: u32, n: u8)
        requires { n < N }
        ensures { self.new ≡ slice_set self.old n (disabled_in mask n (entry_at self.old n)) }
    {
        let entry = self.get(n);
        if has_bit(mask, n) {
            self.set(n, entry.with_thread(None));
        }
    }

    // How many resources there are.
    #[inline]
    fn count(&self) -> u8
        ensures value { result ≡ N }
        ensures length { length self.now ≡ N }
        ensures most { N ≤ 32 }
    {
        let entries = &self.entries;
        entries.len() as u8
    }

    // The resources that give interrupts, or events, to thread `th`, 0 to 7, if they are ready.
    #[inline]
    fn given_to(&self, th: u8, interrupt: bool) -> u32
        requires { th < THREADS }
        ensures given { (n : ℕ) → n < 32 → in_mask result n ≡ gives_to th interrupt (entry_at self.now n) }
        ensures most { length self.now ≤ 32 }
        ensures count { length self.now ≡ N }
    {
        let enabled = self.marks.enabled[th as usize];
        if interrupt {
            enabled & self.marks.interrupts
        } else {
            enabled & !self.marks.interrupts
        }
    }

    /// The first of the resources that are ready and give interrupts, or events, to thread `th`, 0 to 7.
    #[inline]
    pub(crate) fn first(&self, th: u8, interrupt: bool, ready: u32) -> Option<Enabling>
        requires { th < THREADS }
        ensures { (is_ready : ℕ → Bool) → ((n : ℕ) → n < N → in_mask ready n ≡ is_ready n) → result ≡ first_ready (gives_to th interrupt) is_ready 0 self.now }
    {
        let given = self.given_to(th, interrupt) & ready;
        if given == 0 {
            None
        } else {
            Some(self.entries[lowest(given) as usize])
        }
    }

    /// Whether one of the resources is ready and gives interrupts, or events, to thread `th`, 0 to 7.
    #[inline]
    pub(crate) fn any(&self, th: u8, interrupt: bool, ready: u32) -> bool
        requires { th < THREADS }
        ensures { (is_ready : ℕ → Bool) → ((n : ℕ) → n < N → in_mask ready n ≡ is_ready n) → result ≡ is_some (first_ready (gives_to th interrupt) is_ready 0 self.now) }
    {
        self.given_to(th, interrupt) & ready != 0
    }
}
