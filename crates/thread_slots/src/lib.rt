//! Which thread issues in a slot: the last issues of eight threads, and the pick among those that may issue. And whether the
//! divider that they share is free.
//! See docs/MACHINE.md.
#![tactic(auto)]

ghost use Rattle.std.specs.Prelude.{◌≡◌, ◌≢◌, ◌<◌, ◌≤◌, ◌↔◌, ◌&&◌, ℕ, Bool, true, false, List, Option, Some, None, length, replicate, slice_index, slice_index_or, slice_set, IfSome};
ghost use Rattle.xs_base.specs.declared.numbers.TheConstants.{THREADS};
ghost use Rattle.xs_model.specs.Record.{never_divided};
ghost use Rattle.xs_model.specs.Waits.{division_is_over};
ghost use Rattle.xs_model.specs.Picks.{is_rested, is_earlier, pick};
ghost use Rattle.xs_model.specs.Masks.{in_mask};
ghost use Rattle.quiet_model.specs.Slots.{IsFirst};
ghost use Rattle.thread_slots.specs.Able.{may_pick, some_may_pick};
ghost use Rattle.thread_slots.specs.Turns.{IsLeast};

use std::marker::Model;
use xs_base::numbers::THREADS;
use xs_model::DIVISION_SLOTS;

/// In which slot each of a core's eight threads issued last, or that it never did, and in which slot the core divided last.
/// Contracts see a `SlotsRec` of `Rattle.xs_model.specs.Record`. See docs/MACHINE.md.
#[derive(Clone, Copy, Drop)]
pub struct Slots {
    // Each thread's turn: eight times the first slot in which it is rested, 0 where it never issued, plus its number.
    // So of any threads the one to pick has the least turn, and where that one is not rested, none of them is.
    turns: [u64; 8],
    // The slot of the core's last division.
    division: Option<u32>,
}

impl Model for Slots {
    ghost use Rattle.std.specs.Prelude.{map};
    ghost use Rattle.xs_model.specs.Record.{SlotsRec};
    ghost use Rattle.thread_slots.specs.Turns.{last_in, turns_from, turns_again, AreTurns};

    ghost Value = { SlotsRec };

    ghost view = { λ slots. record { last = map last_in slots.turns; division = slots.division } };

    ghost invariant = { λ slots. AreTurns slots.turns };

    ghost inverse = { λ slots. record { turns = turns_from 0 slots.last; division = slots.division } };

    ghost inverse_ok = { λ slots are i. record { turns = turns_again slots.turns are i; division = slots.division } };
}

impl Slots {
    /// The last issues at the start: no thread ever issued, and the core never divided.
    pub fn new() -> Slots
        ensures never { result ≡ never_divided (replicate 8 None) }
    {
        Slots {
            turns: [0, 1, 2, 3, 4, 5, 6, 7],
            division: None,
        }
    }

    /// Notes that a thread, 0 to 7, issues in a slot.
    #[inline]
    pub fn mark_issue(&mut self, th: u8, slot: u32)
        requires { th < THREADS }
        ensures marked { self.new ≡ record self.old { last = slice_set self.old.last th (Some slot) } }
    {
        self.turns[th as usize] = 8 * (u64::from(slot) + 4) + u64::from(th);
    }

    /// The slot in which a thread, 0 to 7, issued last: `None` exactly where it never did.
    #[inline]
    pub fn last(&self, th: u8) -> Option<u32>
        requires { th < THREADS }
        ensures value { result ≡ slice_index_or self.now.last th None }
        ensures threads { length self.now.last ≡ THREADS }
    {
        let rested = self.turns[th as usize] / 8;
        if rested == 0 {
            None
        } else {
            Some((rested - 4) as u32)
        }
    }

    /// The thread that issues in a slot. Bit k of `able` is set for each thread k that may issue but for the four
    /// slots of rest that lie between two issues of one thread. Of the threads that are able and rested the one
    /// with the earliest last issue is picked, never being before every slot, and among equals the one with the
    /// lowest number; `None` comes exactly where no thread is able and rested: each one is not in the mask, or issued
    /// last three slots before this one or later. See docs/MACHINE.md.
    #[inline]
    pub fn pick(&self, able: u8, slot: u32) -> Option<u8>
        ensures value { (may : ℕ → Bool) → ((k : ℕ) → k < THREADS → may k ≡ may_pick able self.now.last slot k) → result ≡ pick may self.now.last }
        ensures none { result ≡ None ↔ ((k : ℕ) → k < THREADS → may_pick able self.now.last slot k ≡ false) }
        ensures within { IfSome result (λ k. k < THREADS) }
        ensures able { IfSome result (λ k. in_mask able k ≡ true) }
        ensures rested { IfSome result (λ k. is_rested (slice_index_or self.now.last k None) slot ≡ true) }
        ensures least { IfSome result (λ k. (j : ℕ) → j < THREADS → may_pick able self.now.last slot j ≡ true → is_earlier (slice_index_or self.now.last j None) (slice_index_or self.now.last k None) ≡ false) }
        ensures lowest { IfSome result (λ k. (j : ℕ) → j < k → may_pick able self.now.last slot j ≡ true → is_earlier (slice_index_or self.now.last k None) (slice_index_or self.now.last j None) ≡ true) }
    {
        let turn = least_turn(&self.turns, able);
        if turn / 8 <= u64::from(slot) {
            Some((turn % 8) as u8)
        } else {
            None
        }
    }

    /// The first slot of `from` to `bound - 1` in which a thread of a mask is rested, and `bound` where none is in any of them.
    /// Bit k of `mask` is that of thread k. It takes no memory. See docs/MACHINE.md.
    #[inline]
    pub fn rested_from(&self, mask: u8, from: u32, bound: u32) -> u32
        ensures first { IsFirst (some_may_pick mask self.now.last) from bound result }
    {
        let rested = least_turn(&self.turns, mask) / 8;
        rested.max(u64::from(from)).min(u64::from(bound)) as u32
    }

    /// Whether a thread of a mask is rested in a slot. Bit k of `mask` is that of thread k. It takes no memory. See docs/MACHINE.md.
    #[inline]
    pub fn some_rested(&self, mask: u8, slot: u32) -> bool
        ensures value { result ≡ some_may_pick mask self.now.last slot }
    {
        some_turn_before(&self.turns, mask, 8 * (u64::from(slot) + 1))
    }

    /// Whether the core's divider is free in a slot: false exactly where the core divided last in this slot, in one of the 31
    /// before it, or in a later one. It takes no memory. See docs/MACHINE.md.
    #[inline]
    pub fn divider_free(&self, slot: u32) -> bool
        ensures value { result ≡ division_is_over self.now.division slot }
    {
        match self.division {
            None => true,
            Some(division) => slot >= DIVISION_SLOTS && division <= slot - DIVISION_SLOTS,
        }
    }

    /// A slot, not before this one, up to which the divider is as it is in this one: the last slot in which it is not free, where it is not
    /// free now, and else the last of all numbers. It takes no memory.
    #[inline]
    pub fn divider_until(&self, slot: u32) -> u32
        ensures alike { (later : ℕ) → slot ≤ later → later ≤ result → division_is_over self.now.division later ≡ division_is_over self.now.division slot }
        ensures now { slot ≤ result }
    {
        match self.division {
            Some(division) if !self.divider_free(slot) => {
                division.saturating_add(DIVISION_SLOTS - 1)
            }
            _ => u32::MAX,
        }
    }

    /// Notes that the core divides in a slot: the divider is not free then up to the 31st slot after it, nor where it was not free
    /// before. Where it was free, that is the core's last division from now on. It takes no memory.
    #[inline]
    pub fn take_divider(&mut self, slot: u32)
        ensures taken { division_is_over self.old.division slot ≡ true → self.new ≡ record self.old { division = Some slot } }
        ensures free { (at : ℕ) → division_is_over self.new.division at ≡ (division_is_over self.old.division at && division_is_over (Some slot) at) }
        ensures last { self.new.last ≡ self.old.last }
    {
        self.division = match self.division {
            Some(before) if before > slot => Some(before),
            _ => Some(slot),
        };
    }

    /// What a snapshot keeps: the slot in which each thread issued last, by the threads' numbers, and that of the core's last division,
    /// each `None` where there was none. It takes no memory. See docs/SNAPSHOTS.md.
    pub fn state(&self) -> ([Option<u32>; 8], Option<u32>)
        ensures last { result.0 ≡ self.now.last }
        ensures division { result.1 ≡ self.now.division }
    {
        let mut last = [None; 8];
        for th in 0..THREADS {
            last[th as usize] = self.last(th);
        }
        (last, self.division)
    }

    /// The last issues that a snapshot keeps, by the threads' numbers, and its last division. It takes no memory. See
    /// docs/SNAPSHOTS.md.
    pub fn of_state(last: &[Option<u32>; 8], division: Option<u32>) -> Slots
        ensures value { result ≡ record { last = last.now; division = division } }
    {
        let mut slots = Slots::new();
        for th in 0..THREADS {
            if let Some(slot) = last[th as usize] {
                slots.mark_issue(th, slot);
            }
        }
        Slots { division, ..slots }
    }
}

/// The mask with no thread in it, for `Slots::pick`.
#[inline]
pub fn no_threads() -> u8
    ensures { (k : ℕ) → in_mask result k ≡ false }
{
    0
}

/// A mask with thread `th`, 0 to 7, in it as well, for `Slots::pick`.
#[inline]
pub fn with_able(able: u8, th: u8) -> u8
    requires { th < THREADS }
    ensures added { in_mask result th ≡ true }
    ensures others { (k : ℕ) → k ≢ th → in_mask result k ≡ in_mask able k }
{
    able | (1 << th)
}

/// Whether the turn of some thread in a mask is less than a number. It goes no further than the first.
#[inline]
fn some_turn_before(turns: &[u64; 8], mask: u8, end: u64) -> bool
    ensures some { result ≡ true → (k : ℕ) × (k < THREADS) × (in_mask mask k ≡ true) × (slice_index turns.now k < end) }
    ensures none { result ≡ false → (k : ℕ) → k < THREADS → in_mask mask k ≡ true → end ≤ slice_index turns.now k }
{
    let mut left = mask;
    while left != 0 {
        let k = left.trailing_zeros();
        if turns[k as usize] < end {
            return true;
        }
        left &= left - 1;
    }
    false
}

/// The least turn of the threads in a mask, `u64::MAX` where there is none. Both ways lead to the same: where only the first
/// four threads are in the mask it takes less to go from bit to bit, else to go over all eight.
#[inline]
fn least_turn(turns: &[u64; 8], able: u8) -> u64
    ensures { IsLeast (in_mask able) turns.now result }
{
    if able < 16 {
        least_of_few(turns, able)
    } else {
        least_of_many(turns, able)
    }
}

#[inline]
fn least_of_few(turns: &[u64; 8], able: u8) -> u64
    ensures { IsLeast (in_mask able) turns.now result }
{
    let mut least = u64::MAX;
    let mut left = able;
    while left != 0 {
        let k = left.trailing_zeros();
        least = least.min(turns[k as usize]);
        left &= left - 1;
    }
    least
}

#[inline]
fn least_of_many(turns: &[u64; 8], able: u8) -> u64
    ensures { IsLeast (in_mask able) turns.now result }
{
    let mut least = u64::MAX;
    let mask = u32::from(able); // the bits of a word take fewer instructions than those of a byte
    for (k, turn) in turns.iter().enumerate() {
        if (mask >> k) & 1 == 1 {
            least = least.min(*turn);
        }
    }
    least
}
