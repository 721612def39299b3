//! The slaves of a synchroniser: threads as the bits of a mask.
ghost use Rattle.std.specs.Prelude.{◌≡◌, ◌<◌, slice_index_or};
ghost use Rattle.std.specs.List.{list_all};
ghost use Rattle.xs_base.specs.declared.numbers.TheConstants.{THREADS};
ghost use Rattle.xs_model.specs.Threads.{fresh_thread};
ghost use Rattle.xs_model.specs.Masks.{in_mask, members};
ghost use Rattle.xs_model.specs.Waits.{is_in};
ghost use Rattle.xs_model.specs.Enabling.{without_threads};
ghost use Rattle.step_model.specs.ThreadRows.{with_runs};

use bit_masks::has_bit;
use event_unit::Events;
use xs_base::numbers::THREADS;
use xs_model::{Run, Thread};

/// Whether the threads of a mask are all unstarted or at sync.
pub fn all_in(threads: &[Thread; 8], slaves: u8) -> bool
    ensures value { result ≡ list_all (λ k. is_in (slice_index_or threads.now k fresh_thread).run) (members slaves) }
{
    for k in 0..THREADS {
        if is_member(k, slaves) && !is_in(threads[k as usize].run) {
            return false;
        }
    }
    true
}

/// What the threads of a mask do from now on.
pub fn set_runs(threads: &mut [Thread; 8], slaves: u8, run: Run)
    ensures set { threads.new ≡ with_runs run (members slaves) threads.old }
{
    for k in 0..THREADS {
        if is_member(k, slaves) {
            threads[k as usize].run = run;
        }
    }
}

/// Disables all that the threads of a mask enabled: they are freed.
pub fn drop_threads(events: &mut Events, threads: u8)
    ensures after { events.new ≡ without_threads (members threads) events.old }
{
    for k in 0..THREADS {
        if is_member(k, threads) {
            events.drop_thread(k);
        }
    }
}

// Whether thread `k`, 0 to 7, is in a mask.
#[inline]
fn is_member(k: u8, mask: u8) -> bool
    requires { k < THREADS }
    ensures value { result ≡ in_mask mask k }
{
    has_bit(u32::from(mask), k)
}

/// Whether a thread is where its synchroniser waits for it.
pub fn is_in(run: Run) -> bool
    ensures value { result ≡ is_in run }
{
    matches!(run, Run::Unstarted | Run::AtSync)
}
