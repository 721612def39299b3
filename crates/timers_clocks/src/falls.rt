//! The falling edges of a clock that has one in every period, of the reference clock as of a clock block that runs.
ghost use Rattle.std.specs.Prelude.{◌≡◌, ◌<◌, ◌≤◌, ◌-◌, List};
ghost use Rattle.xs_model.specs.declared.clock.Clock.{Clock};
ghost use Rattle.xs_model.specs.Record.{ClockRec};
ghost use Rattle.quiet_model.specs.Slots.{IsFirst};
ghost use Rattle.quiet_model.specs.Clocks.{falls_in, has_fallen};
ghost use Rattle.timers_clocks.specs.Falls.{FallsEvery, AreBefore};

/// How many there are in slots from `from` to `to` - 1, where a period has so many slots, 2 to 2,040.
pub(crate) fn falls_in(period: u32, from: u32, to: u32) -> u32
    requires some { 1 < period }
    requires most { period ≤ 2040 }
    ensures { (clocks : List ClockRec) (clock : Clock) → FallsEvery period clocks clock → result ≡ falls_in clocks clock from (to - from) }
{
    if to <= from {
        return 0;
    }
    falls_before(period, to) - falls_before(period, from)
}

/// The slot of the `k`-th of them, counted from 1, from slot `from` on, if it is below `bound`, and else `bound`.
pub(crate) fn fall_at(period: u32, from: u32, bound: u32, k: u32) -> u32
    requires some { 1 < period }
    requires most { period ≤ 2040 }
    requires counted { 0 < k }
    ensures { (clocks : List ClockRec) (clock : Clock) → FallsEvery period clocks clock → IsFirst (has_fallen clocks clock from k) from bound result }
{
    let number = u64::from(falls_before(period, from)) + u64::from(k - 1);
    let slot = number * u64::from(period) + u64::from(period / 2);
    if slot < u64::from(bound) {
        slot as u32
    } else {
        bound
    }
}

// How many there are before a slot, from slot 0 on.
fn falls_before(period: u32, slot: u32) -> u32
    requires some { 1 < period }
    requires most { period ≤ 2040 }
    ensures { AreBefore period slot result }
{
    let rest = period - period / 2 - 1;
    ((u64::from(slot) + u64::from(rest)) / u64::from(period)) as u32
}
