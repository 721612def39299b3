//! Rows of fields of one kind, and what other fields ask of them.
ghost use Rattle.std.specs.Prelude.{◌≡◌, ◌++◌, length, zip, OnOk};
ghost use Rattle.xs_base.specs.declared.numbers.TheConstants.{CHAN_ENDS, TIMERS, CLOCK_BLOCKS, LOCKS};
ghost use Rattle.step_model.specs.ThreadRows.{is_taken};
ghost use Rattle.byte_forms.specs.Forms.{repeat};
ghost use Rattle.byte_forms.specs.Reading.{Gives};
ghost use Rattle.state_forms.specs.Chans.{chan};
ghost use Rattle.state_forms.specs.Timers.{timer, clock};
ghost use Rattle.state_forms.specs.Locks.{lock};
ghost use Rattle.state_forms.specs.Enables.{enable};
ghost use Rattle.node_forms.specs.Nodes.{taken_of, used_of};

use byte_forms::{Fault, Reader};
use chan_ends::ChanState;
use event_unit::EnableState;
use state_forms::{read_places, write_each};
use std::alloc::AllocError;
use sync_locks::LockState;
use timers_clocks::{ClockState, TimerState};
use xs_base::Text;
use xs_base::numbers::CHAN_ENDS;
use xs_model::{Run, Thread};

/// Reads the channel ends.
pub(crate) fn read_chans(from: &mut Reader, chans: &mut [ChanState; 32]) -> Result<(), Fault>
    ensures value { Gives (repeat CHAN_ENDS chan) (λ _. chans.new) from.old result from.new }
{
    read_places(from, chans)
}

/// Reads the timers.
pub(crate) fn read_timers(from: &mut Reader, timers: &mut [TimerState; 10]) -> Result<(), Fault>
    ensures value { Gives (repeat TIMERS timer) (λ _. timers.new) from.old result from.new }
{
    read_places(from, timers)
}

/// Reads the clock blocks.
pub(crate) fn read_clocks(from: &mut Reader, clocks: &mut [ClockState; 6]) -> Result<(), Fault>
    ensures value { Gives (repeat CLOCK_BLOCKS clock) (λ _. clocks.new) from.old result from.new }
{
    read_places(from, clocks)
}

/// Reads the locks.
pub(crate) fn read_locks(from: &mut Reader, locks: &mut [LockState; 4]) -> Result<(), Fault>
    ensures value { Gives (repeat LOCKS lock) (λ _. locks.new) from.old result from.new }
{
    read_places(from, locks)
}

/// Reads what as many resources give.
pub(crate) fn read_enables(from: &mut Reader, enables: &mut [EnableState]) -> Result<(), Fault>
    ensures value { Gives (repeat (length enables.old) enable) (λ _. enables.new) from.old result from.new }
    ensures count { length enables.new ≡ length enables.old }
{
    read_places(from, enables)
}

/// Writes the channel ends. The error is want of memory, as of all that write here.
pub(crate) fn write_chans(out: &mut Text, chans: &[ChanState; 32]) -> Result<(), AllocError>
    ensures { OnOk result (out.new ≡ out.old ++ (repeat CHAN_ENDS chan).write chans.now) }
{
    write_each(out, chans)
}

/// Writes the timers.
pub(crate) fn write_timers(out: &mut Text, timers: &[TimerState; 10]) -> Result<(), AllocError>
    ensures { OnOk result (out.new ≡ out.old ++ (repeat TIMERS timer).write timers.now) }
{
    write_each(out, timers)
}

/// Writes the clock blocks.
pub(crate) fn write_clocks(out: &mut Text, clocks: &[ClockState; 6]) -> Result<(), AllocError>
    ensures { OnOk result (out.new ≡ out.old ++ (repeat CLOCK_BLOCKS clock).write clocks.now) }
{
    write_each(out, clocks)
}

/// Writes the locks.
pub(crate) fn write_locks(out: &mut Text, locks: &[LockState; 4]) -> Result<(), AllocError>
    ensures { OnOk result (out.new ≡ out.old ++ (repeat LOCKS lock).write locks.now) }
{
    write_each(out, locks)
}

/// Writes what some resources give.
pub(crate) fn write_enables(out: &mut Text, enables: &[EnableState]) -> Result<(), AllocError>
    ensures { OnOk result (out.new ≡ out.old ++ (repeat (length enables.now) enable).write enables.now) }
{
    write_each(out, enables)
}

/// Which channel ends are in use.
pub(crate) fn used_of(chans: &[ChanState; 32]) -> [bool; 32]
    ensures { result ≡ used_of chans.now }
{
    let mut used = [false; 32];
    for c in 0..CHAN_ENDS {
        used[c as usize] = chans[c as usize].used;
    }
    used
}

/// Which threads, told with their last issues, are not free.
pub(crate) fn taken_of(threads: &[Thread; 8], last: &[Option<u32>; 8]) -> [bool; 8]
    ensures { result ≡ taken_of (zip threads.now last.now) }
{
    let _ = last;
    threads.map(is_taken)
}

fn is_taken(th: Thread) -> bool
    ensures { result ≡ is_taken th.run }
{
    !matches!(th.run, Run::Free)
}
