//! `Timers`, the timers of a core.
ghost use Rattle.std.specs.Prelude.{ℕ, ◌≡◌, ◌<◌, ◌≤◌, ◌↔◌, true, false, Some, None, length, map, OnOk, OnErr, IsErr, IfSome, slice_set};
ghost use Rattle.std.specs.List.{list_any};
ghost use Rattle.xs_base.specs.Numbers.{Slot};
ghost use Rattle.xs_base.specs.declared.numbers.TheConstants.{TIMERS};
ghost use Rattle.xs_model.specs.Free.{lowest_free};
ghost use Rattle.xs_model.specs.Masks.{in_mask};
ghost use Rattle.xs_model.specs.Record.{unused_timer};
ghost use Rattle.xs_model.specs.Time.{time_at, timer_holds, freed_timer, with_value, with_after};
ghost use Rattle.quiet_model.specs.Slots.{IsFirst};
ghost use Rattle.timers_clocks.specs.Timers.{no_timers, timer_at, with_got_timer, timers_after};
ghost use Rattle.timers_clocks.specs.Alike.{SomeTurnsAfter};
ghost use Rattle.timers_clocks.specs.States.{timer_state, timer_of};

use crate::answers::Bad;
use crate::conditions;
use crate::state::TimerState;
use crate::timer::{Timer, time};
use std::marker::Model;
use xs_base::numbers::TIMERS;

/// A core's 10 timers, each numbered from 0. A timer in use has a value, and it may have the condition that the time is
/// after it. Contracts see the list of their `TimerRec`s of `Rattle.xs_model.specs.Record`. See docs/TIME.md.
#[derive(Drop)]
pub struct Timers {
    timers: [Timer; 10],
    // The timers that have the condition: bit n for timer n.
    conditions: u32,
}

impl Model for Timers {
    ghost use Rattle.std.specs.Prelude.{◌≡◌, List, length};
    ghost use Rattle.xs_model.specs.Record.{TimerRec};

    ghost Value = { List TimerRec };

    ghost view = { λ core. core.timers };

    ghost use Rattle.timers_clocks.specs.Timers.{IsMask};

    ghost invariant = { λ core. (length core.timers ≡ 10) × IsMask core.conditions core.timers };
}

impl Timers {
    /// The timers at the start: none is in use.
    pub fn new() -> Timers
        ensures unused { result ≡ no_timers }
    {
        Timers {
            timers: Default::default(),
            conditions: 0,
        }
    }

    /// Gets the timer with the lowest number that is not in use: it is in use then, and its value and condition are as they were, which is 0 and none but
    /// where a state said otherwise (`of_state`). `None` comes exactly where all 10 are in use. See docs/TIME.md.
    pub fn get(&mut self) -> Option<u8>
        ensures lowest { result ≡ lowest_free (λ timer. timer.used) self.old 0 }
        ensures got { self.new ≡ with_got_timer self.old (lowest_free (λ timer. timer.used) self.old 0) }
        ensures within { IfSome result (λ n. n < TIMERS) }
        ensures none { result ≡ None ↔ ((n : ℕ) → n < TIMERS → (timer_at self.old n).used ≡ true) }
    {
        let free = first_free(&self.timers);
        if let Some(n) = free {
            let timer = &mut self.timers[n as usize];
            timer.get();
            self.conditions = conditions::noted(self.conditions, n, timer);
        }
        free
    }

    /// Puts timer `n`, 0 to 9, out of use: it has the value 0 and no condition again. `Bad` comes exactly where it is not
    /// in use, and then nothing changes. See docs/TIME.md.
    pub fn free(&mut self, n: u8) -> Result<(), Bad>
        requires { n < TIMERS }
        ensures ok { OnOk result (freed_timer (timer_at self.old n) ≡ Some unused_timer) }
        ensures err { OnErr result (freed_timer (timer_at self.old n) ≡ None) }
        ensures after { self.new ≡ timers_after self.old n (freed_timer (timer_at self.old n)) }
        ensures unchanged { OnErr result (self.new ≡ self.old) }
        ensures bad { IsErr result ↔ ((timer_at self.old n).used ≡ false) }
    {
        let timer = &mut self.timers[n as usize];
        let answer = timer.free();
        self.conditions = conditions::noted(self.conditions, n, timer);
        answer
    }

    /// Sets the value of the condition of timer `n`, 0 to 9: a time. `Bad` comes exactly where it is not in use, and then
    /// nothing changes. See docs/TIME.md.
    pub fn set_value(&mut self, n: u8, v: u32) -> Result<(), Bad>
        requires { n < TIMERS }
        ensures ok { OnOk result (with_value v (timer_at self.old n) ≡ Some (record (timer_at self.old n) { value = v })) }
        ensures err { OnErr result (with_value v (timer_at self.old n) ≡ None) }
        ensures after { self.new ≡ timers_after self.old n (with_value v (timer_at self.old n)) }
        ensures unchanged { OnErr result (self.new ≡ self.old) }
        ensures bad { IsErr result ↔ ((timer_at self.old n).used ≡ false) }
    {
        let timer = &mut self.timers[n as usize];
        let answer = timer.set_value(v);
        self.conditions = conditions::noted(self.conditions, n, timer);
        answer
    }

    /// Gives timer `n`, 0 to 9, the condition that the time is after its value, where `on`, or takes the condition away.
    /// `Bad` comes exactly where it is not in use, and then nothing changes. See docs/TIME.md.
    pub fn set_after(&mut self, n: u8, on: bool) -> Result<(), Bad>
        requires { n < TIMERS }
        ensures ok { OnOk result (with_after on (timer_at self.old n) ≡ Some (record (timer_at self.old n) { after = on })) }
        ensures err { OnErr result (with_after on (timer_at self.old n) ≡ None) }
        ensures after { self.new ≡ timers_after self.old n (with_after on (timer_at self.old n)) }
        ensures unchanged { OnErr result (self.new ≡ self.old) }
        ensures bad { IsErr result ↔ ((timer_at self.old n).used ≡ false) }
    {
        let timer = &mut self.timers[n as usize];
        let answer = timer.set_after(on);
        self.conditions = conditions::noted(self.conditions, n, timer);
        answer
    }

    /// The timers whose condition holds in a slot, bit n for timer n; without one it always does, whether the timer is
    /// in use or not. The bits from 10 on are clear. See docs/TIME.md.
    pub fn ready(&self, slot: u32) -> u32
        ensures value { (n : ℕ) → n < TIMERS → in_mask result n ≡ timer_holds slot (timer_at self.now n) }
        ensures none_above { (n : ℕ) → TIMERS ≤ n → in_mask result n ≡ false }
        ensures count { length self.now ≡ TIMERS }
    {
        if self.conditions == 0 {
            ALL
        } else {
            conditions::holding(&self.timers, slot)
        }
    }

    /// Whether a timer has a condition. Where none has, the same timers are ready in each slot.
    pub fn has_conditions(&self) -> bool
        ensures value { result ≡ list_any (λ timer. timer.after) self.now }
    {
        conditions::any(self.conditions)
    }

    /// Whether the condition of timer `n` holds in a slot. With an `n` of 10 or more it speaks of one without a condition.
    pub fn holds(&self, n: u8, slot: u32) -> bool
        ensures value { result ≡ timer_holds slot (timer_at self.now n) }
    {
        if n < TIMERS {
            self.timers[n as usize].holds(Timers::time(slot))
        } else {
            true
        }
    }

    /// The first slot of `from` to `bound - 1` in which the condition of timer `n`, 0 to 9, holds, and `bound` where it holds
    /// in none of them. It takes no memory. See docs/TIME.md.
    pub fn ready_from(&self, n: u8, from: u32, bound: u32) -> u32
        requires { n < TIMERS }
        ensures first { IsFirst (λ slot. timer_holds slot (timer_at self.now n)) from bound result }
    {
        self.timers[n as usize].holds_from(from, bound)
    }

    /// The last slot up to which the condition of each timer holds, or does not hold, as it does in this one. Where no timer
    /// has a condition, and where that goes beyond all slots, it is `u32::MAX`. It takes no memory.
    #[inline]
    pub fn alike_until(&self, slot: u32) -> u32
        ensures same { (n : ℕ) (later : Slot) → slot ≤ later → later ≤ result → timer_holds later (timer_at self.now n) ≡ timer_holds slot (timer_at self.now n) }
        ensures now { slot ≤ result }
        ensures last { SomeTurnsAfter self.now slot result }
    {
        if self.conditions == 0 {
            u32::MAX
        } else {
            conditions::alike_until(&self.timers, slot)
        }
    }

    /// What timers show in a slot: a quarter of its number, rounded down, modulo 2^32.
    pub fn time(slot: u32) -> u32
        ensures value { result ≡ time_at slot }
    {
        time(slot)
    }

    /// The value of the condition of timer `n`, 0 to 9.
    pub fn value(&self, n: u8) -> u32
        requires { n < TIMERS }
        ensures value { result ≡ (timer_at self.now n).value }
    {
        self.timers[n as usize].value()
    }

    /// Whether timer `n`, 0 to 9, is in use.
    pub fn used(&self, n: u8) -> bool
        requires { n < TIMERS }
        ensures value { result ≡ (timer_at self.now n).used }
    {
        self.timers[n as usize].is_used()
    }

    /// What a snapshot keeps of the timers, by their numbers. It takes no memory. See docs/SNAPSHOTS.md.
    pub fn state(&self) -> [TimerState; 10]
        ensures value { result ≡ map timer_state self.now }
    {
        self.timers.each_ref().map(Timer::state)
    }

    /// The timers that a snapshot keeps, by their numbers. It takes no memory. See docs/SNAPSHOTS.md.
    pub fn of_state(timers: &[TimerState; 10]) -> Timers
        ensures value { result ≡ map timer_of timers.now }
    {
        let all = timers.map(Timer::of_state);
        let conditions = conditions::of_all(&all);
        Timers {
            timers: all,
            conditions,
        }
    }
}

/// A mask of all timers.
const ALL: u32 = (1 << TIMERS) - 1;

/// The lowest timer that is not in use.
fn first_free(timers: &[Timer; 10]) -> Option<u8>
    ensures lowest { result ≡ lowest_free (λ timer. timer.used) timers.now 0 }
    ensures within { IfSome result (λ n. n < TIMERS) }
{
    for n in 0..TIMERS {
        if !timers[n as usize].is_used() {
            return Some(n);
        }
    }
    None
}
