//! What waits at channel ends, and the moments of timers.
ghost use Rattle.std.specs.Prelude.{◌≡◌, ◌++◌, OnOk, slice_get};
ghost use Rattle.look_model.specs.Resources.{timer_name, moment_text, output_count, input_count, slots_until_after};

use crate::pieces::Piece::{Number, Timer, Words};
use crate::pieces::append_pieces;
use chan_ends::ChanState;
use std::alloc::AllocError;
use timers_clocks::TimerState;
use xs_base::Text;

/// How many tokens wait at a channel end to be sent.
pub(crate) fn output_count(chans: &[ChanState], c: u8) -> u64
    ensures { result ≡ output_count (slice_get chans.now c) }
{
    match chans.get(c as usize) {
        None => 0,
        Some(chan) => chan.output.len() as u64,
    }
}

/// How many tokens wait at a channel end to be taken.
pub(crate) fn input_count(chans: &[ChanState], c: u8) -> u64
    ensures { result ≡ input_count (slice_get chans.now c) }
{
    match chans.get(c as usize) {
        None => 0,
        Some(chan) => chan.input.len() as u64,
    }
}

/// `timer ID after V, in S slots`, or `timer ID` where the timer has no condition.
pub(crate) fn append_timer(
    out: &mut Text,
    slot: u32,
    timers: &[TimerState],
    n: u8,
) -> Result<(), AllocError>
    ensures { OnOk result (out.new ≡ out.old ++ (timer_name n ++ moment_text slot (slice_get timers.now n))) }
{
    match timers.get(n as usize) {
        Some(timer) if timer.after => append_pieces(
            out,
            &[
                Timer(n),
                Words(b" after "),
                Number(u64::from(timer.value)),
                Words(b", in "),
                Number(slots_until_after(slot, timer.value)),
                Words(b" slots"),
            ],
        ),
        _ => append_pieces(out, &[Timer(n), Words(b"")]),
    }
}

// How many slots it takes until the time is after a value.
fn slots_until_after(slot: u32, value: u32) -> u64
    ensures { result ≡ slots_until_after slot value }
{
    let time = slot / 4;
    let passed = time.wrapping_sub(value);
    if 0 < passed && passed < 0x8000_0000 {
        return 0;
    }
    let times = value.wrapping_add(1).wrapping_sub(time);
    4 * u64::from(times) - u64::from(slot % 4)
}
