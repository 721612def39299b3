//! `in` and `out` on a lock. See docs/THREADS.md.
ghost use Rattle.std.specs.Prelude.{◌<◌};
ghost use Rattle.xs_base.specs.declared.numbers.TheConstants.{THREADS, LOCKS};
ghost use Rattle.xs_model.specs.Record.{lock_of};
ghost use Rattle.xs_model.specs.Syncs.{claimed, released};
ghost use Rattle.step_model.specs.Effect.{goes_on_in};
ghost use Rattle.step_model.specs.ResourceRows.{claimed_there, without_lock};
ghost use Rattle.core_units.specs.Units.{Ends};

use core_units::{Units, illegal};
use sync_locks::Claim;
use xs_model::{Outcome, Wait};

/// Thread k owns a lock, or waits until nobody does.
pub(crate) fn claim(units: &mut Units, k: u8, d: u8, name: u32, lock: u8) -> Outcome
    requires thread { k < THREADS }
    requires target { d < 12 }
    requires within { lock < LOCKS }
    ensures { Ends result units.old units.new (claimed_there units.old k d name lock (claimed k (lock_of units.old lock))) }
{
    match units.syncs.claim(lock, k) {
        Claim::Got => {
            units.go_on_with(k, d, name);
            Outcome::Done
        }
        Claim::Held => Outcome::Pause(Wait::Lock { lock }),
        Claim::Bad => illegal(name),
    }
}

/// Thread k gives up a lock.
pub(crate) fn release(units: &mut Units, k: u8, name: u32, lock: u8) -> Outcome
    requires thread { k < THREADS }
    requires within { lock < LOCKS }
    ensures { Ends result units.old units.new (goes_on_in k name (without_lock units.old lock (released k (lock_of units.old lock)))) }
{
    let released = units.syncs.release(lock, k).is_ok();
    units.end(k, name, released)
}
