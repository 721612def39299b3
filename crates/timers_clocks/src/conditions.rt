//! The conditions of all timers: masks, in which bit n is that of timer n, and up to which slot they hold alike.
ghost use Rattle.std.specs.Prelude.{ℕ, ◌≡◌, ◌<◌, ◌≤◌, false, List, length, slice_set};
ghost use Rattle.std.specs.List.{list_any};
ghost use Rattle.xs_base.specs.Numbers.{Slot};
ghost use Rattle.xs_base.specs.declared.numbers.TheConstants.{TIMERS};
ghost use Rattle.xs_model.specs.Masks.{in_mask};
ghost use Rattle.xs_model.specs.Record.{TimerRec};
ghost use Rattle.xs_model.specs.Time.{timer_holds};
ghost use Rattle.timers_clocks.specs.Timers.{IsMask, timer_at};
ghost use Rattle.timers_clocks.specs.Alike.{SomeTurnsAfter};

use crate::timer::{Timer, time};
use bit_masks::with_bit;
use xs_base::numbers::TIMERS;

/// The mask of the timers that have the condition, after timer `n`, 0 to 9, became this.
pub(crate) fn noted(mask: u32, n: u8, timer: &Timer) -> u32
    requires { n < TIMERS }
    ensures { (timers : List TimerRec) → length timers ≡ TIMERS → IsMask mask timers → IsMask result (slice_set timers n timer.now) }
{
    with_bit(mask, n, timer.has_condition())
}

/// The mask of the timers that have the condition.
pub(crate) fn of_all(timers: &[Timer; 10]) -> u32
    ensures { IsMask result timers.now }
{
    let mut mask = 0;
    for n in 0..TIMERS {
        if timers[n as usize].has_condition() {
            mask = with_bit(mask, n, true);
        }
    }
    mask
}

/// Whether a timer has the condition, by the mask of those that do.
pub(crate) fn any(mask: u32) -> bool
    ensures { (timers : List TimerRec) → length timers ≡ TIMERS → IsMask mask timers → result ≡ list_any (λ timer. timer.after) timers }
{
    mask != 0
}

/// The timers whose condition holds in a slot.
pub(crate) fn holding(timers: &[Timer; 10], slot: u32) -> u32
    ensures value { (n : ℕ) → n < TIMERS → in_mask result n ≡ timer_holds slot (timer_at timers.now n) }
    ensures none_above { (n : ℕ) → TIMERS ≤ n → in_mask result n ≡ false }
{
    let time = time(slot);
    let mut mask = 0;
    for n in 0..TIMERS {
        if timers[n as usize].holds(time) {
            mask = with_bit(mask, n, true);
        }
    }
    mask
}

/// The last slot up to which the condition of each timer holds, or does not hold, as it does in this one.
pub(crate) fn alike_until(timers: &[Timer; 10], slot: u32) -> u32
    ensures same { (n : ℕ) (later : Slot) → slot ≤ later → later ≤ result → timer_holds later (timer_at timers.now n) ≡ timer_holds slot (timer_at timers.now n) }
    ensures now { slot ≤ result }
    ensures last { SomeTurnsAfter timers.now slot result }
{
    let mut until = u32::MAX;
    for n in 0..TIMERS {
        until = until.min(timers[n as usize].alike_until(slot));
    }
    until
}
