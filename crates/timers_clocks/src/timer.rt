//! `Timer`, one timer.
ghost use Rattle.std.specs.Prelude.{ℕ, ◌≡◌, ◌<◌, ◌≤◌, ◌+◌, ◌%◌, ◌^◌, ◌↔◌, ◌||◌, not, true, false, Some, None, OnOk, OnErr, IsErr};
ghost use Rattle.xs_base.specs.Numbers.{Slot};
ghost use Rattle.xs_model.specs.Record.{unused_timer};
ghost use Rattle.xs_model.specs.Time.{is_after, time_at, timer_holds, got_timer, freed_timer, with_value, with_after};
ghost use Rattle.quiet_model.specs.Slots.{IsFirst};
ghost use Rattle.timers_clocks.specs.Timers.{timer_after};
ghost use Rattle.timers_clocks.specs.Alike.{is_past, TurnsAfter};
ghost use Rattle.timers_clocks.specs.States.{timer_state, timer_of};

use crate::answers::Bad;
use crate::state::TimerState;
use std::marker::Model;

/// A timer: whether it is in use, the value of its condition, and whether it has the condition. Contracts see it as a
/// `TimerRec` of `Rattle.xs_model.specs.Record`.
#[derive(Drop)]
pub(crate) struct Timer {
    used: bool,
    value: u32,
    after: bool,
}

impl Model for Timer {
    ghost use Rattle.xs_model.specs.Record.{TimerRec};

    ghost Value = { TimerRec };

    ghost view = { λ timer. record { used = timer.used; value = timer.value; after = timer.after } };
}

impl Default for Timer {
    ghost use Rattle.std.specs.Prelude.{◌≡◌};
    ghost use Rattle.xs_model.specs.Record.{unused_timer};

    ghost is_default = { λ timer. timer ≡ unused_timer };

    fn default() -> Self {
        Timer {
            used: false,
            value: 0,
            after: false,
        }
    }
}

impl Timer {
    /// Puts it in use; its value and its condition stay.
    pub(crate) fn get(&mut self)
        ensures { self.new ≡ got_timer self.old }
    {
        self.used = true;
    }

    /// Puts it out of use, with the value 0 and no condition: refused exactly where it is not in use.
    pub(crate) fn free(&mut self) -> Result<(), Bad>
        ensures ok { OnOk result (freed_timer self.old ≡ Some unused_timer) }
        ensures err { OnErr result (freed_timer self.old ≡ None) }
        ensures after { self.new ≡ timer_after self.old (freed_timer self.old) }
        ensures bad { IsErr result ↔ (self.old.used ≡ false) }
    {
        if !self.used {
            return Err(Bad);
        }
        *self = Timer::default();
        Ok(())
    }

    /// Sets the value of its condition: refused exactly where it is not in use.
    pub(crate) fn set_value(&mut self, value: u32) -> Result<(), Bad>
        ensures ok { OnOk result (with_value value self.old ≡ Some (record self.old { value = value })) }
        ensures err { OnErr result (with_value value self.old ≡ None) }
        ensures after { self.new ≡ timer_after self.old (with_value value self.old) }
        ensures bad { IsErr result ↔ (self.old.used ≡ false) }
    {
        if !self.used {
            return Err(Bad);
        }
        self.value = value;
        Ok(())
    }

    /// Gives it the condition, or takes the condition away: refused exactly where it is not in use.
    pub(crate) fn set_after(&mut self, on: bool) -> Result<(), Bad>
        ensures ok { OnOk result (with_after on self.old ≡ Some (record self.old { after = on })) }
        ensures err { OnErr result (with_after on self.old ≡ None) }
        ensures after { self.new ≡ timer_after self.old (with_after on self.old) }
        ensures bad { IsErr result ↔ (self.old.used ≡ false) }
    {
        if !self.used {
            return Err(Bad);
        }
        self.after = on;
        Ok(())
    }

    /// Whether its condition holds at a time, which without one it always does.
    pub(crate) fn holds(&self, time: u32) -> bool
        ensures { result ≡ (not self.now.after || is_after self.now.value time) }
    {
        let passed = time.wrapping_sub(self.value);
        !self.after || (0 < passed && passed < HALF)
    }

    /// The last slot up to which its condition holds, or does not hold, as it does in this one. Without a condition, and
    /// where that goes beyond all slots, it is `u32::MAX`.
    pub(crate) fn alike_until(&self, slot: u32) -> u32
        ensures same { (later : Slot) → slot ≤ later → later ≤ result → timer_holds later self.now ≡ timer_holds slot self.now }
        ensures now { slot ≤ result }
        ensures last { TurnsAfter (λ slot. timer_holds slot self.now) slot result }
    {
        if self.after {
            after_until(self.value, slot)
        } else {
            u32::MAX
        }
    }

    /// The first slot of `from` to `bound - 1` in which its condition holds, and `bound` where it holds in none of them.
    pub(crate) fn holds_from(&self, from: u32, bound: u32) -> u32
        ensures { IsFirst (λ slot. timer_holds slot self.now) from bound result }
    {
        if self.holds(time(from)) {
            return from.min(bound);
        }
        let until = self.alike_until(from);
        if until < bound { until + 1 } else { bound }
    }

    pub(crate) fn is_used(&self) -> bool
        ensures { result ≡ self.now.used }
    {
        self.used
    }

    pub(crate) fn value(&self) -> u32
        ensures { result ≡ self.now.value }
    {
        self.value
    }

    pub(crate) fn has_condition(&self) -> bool
        ensures { result ≡ self.now.after }
    {
        self.after
    }

    /// What a snapshot keeps of it.
    pub(crate) fn state(&self) -> TimerState
        ensures { result ≡ timer_state self.now }
    {
        TimerState {
            used: self.used,
            after: self.after,
            value: self.value,
        }
    }

    /// The timer that a snapshot keeps.
    pub(crate) fn of_state(state: TimerState) -> Timer
        ensures { result ≡ timer_of state }
    {
        Timer {
            used: state.used,
            value: state.value,
            after: state.after,
        }
    }
}

/// Half of all times.
const HALF: u32 = 1 << 31;

/// What timers show in a slot.
pub(crate) fn time(slot: u32) -> u32
    ensures value { result ≡ time_at slot }
{
    slot / 4
}

// The last slot up to which the time is after a value, or not after it, as in this slot, and `u32::MAX` where that goes
// beyond all slots. A time is after a value while less than half of all times have passed since.
fn after_until(value: u32, slot: u32) -> u32
    ensures same { (later : Slot) → slot ≤ later → later ≤ result → is_after value (time_at later) ≡ is_after value (time_at slot) }
    ensures now { slot ≤ result }
    ensures last { TurnsAfter (λ slot. is_after value (time_at slot)) slot result }
{
    let time = time(slot);
    let left = times_left(time.wrapping_sub(value));
    let change = 4 * (u64::from(time) + u64::from(left));
    (change - 1).min(u64::from(u32::MAX)) as u32
}

// In how many times, when so many have passed since a value, the time is after it no longer, or is after it again.
fn times_left(passed: u32) -> u32
    ensures some { 0 < result }
    ensures stays { (n : ℕ) → n < result → is_past ((passed + n) % 2 ^ 32) ≡ is_past passed }
    ensures turns { is_past ((passed + result) % 2 ^ 32) ≡ not (is_past passed) }
{
    if 0 < passed && passed < HALF {
        HALF - passed
    } else {
        1_u32.wrapping_sub(passed)
    }
}
