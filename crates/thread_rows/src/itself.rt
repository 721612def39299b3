//! The rows on the thread that issues. See docs/THREADS.md.
ghost use Rattle.std.specs.Prelude.{◌≡◌, ◌<◌};
ghost use Rattle.xs_base.specs.declared.numbers.TheConstants.{THREADS};
ghost use Rattle.xs_instructions.specs.declared.instr.ThreadIns.TheVariants.{Freet, Ssync};
ghost use Rattle.step_model.specs.Effect.{Setting};
ghost use Rattle.step_model.specs.ThreadRows.{threads_row, is_slave};
ghost use Rattle.core_units.specs.Units.{Ends};

use core_units::{Units, illegal};
use xs_model::{Outcome, Run};

pub(crate) fn ssync(units: &mut Units, k: u8) -> Outcome
    requires { k < THREADS }
    ensures row { (here : Setting) → Ends result units.old units.new (threads_row here units.old k Ssync) }
{
    if !is_slave(units, k) {
        return illegal(0);
    }
    units.go_on(k);
    units.set_run(k, Run::AtSync);
    Outcome::Done
}

pub(crate) fn freet(units: &mut Units, k: u8) -> Outcome
    requires { k < THREADS }
    ensures row { (here : Setting) → Ends result units.old units.new (threads_row here units.old k Freet) }
{
    if is_slave(units, k) {
        return illegal(0);
    }
    units.go_on(k);
    units.set_run(k, Run::Free);
    units.events.drop_thread(k);
    Outcome::Gone
}

/// Whether a thread is a slave of a synchroniser.
pub(crate) fn is_slave(units: &Units, j: u8) -> bool
    requires { j < THREADS }
    ensures { result ≡ is_slave units.now j }
{
    units.syncs.sync_of(j).is_some()
}
