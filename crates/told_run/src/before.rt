//! `Before`, what is kept of a node right before a slot.
ghost use Rattle.std.specs.Prelude.{◌≡◌, ◌≤◌, length};
ghost use Rattle.serial_model.specs.Serial.{begun_at_start};
ghost use Rattle.told_run.specs.Slots.{IsBefore};
ghost use Rattle.told_run.specs.Kept.{AreBefore};

use core_step::Core;
use run_plan::{SerialMachine, machines_are_serial};
use xs_model::Thread;

/// What is kept of a node right before a slot: its threads, and the slot in which each of them issued last, None where it never did. Both by the
/// number of the thread.
#[derive(Clone, Copy)]
pub struct Before {
    pub threads: [Thread; 8],
    pub last: [Option<u32>; 8],
}

impl Before {
    /// What is kept of no node.
    pub(crate) fn nothing() -> Before {
        Before {
            threads: [Thread::fresh(); 8],
            last: [None; 8],
        }
    }

    // What is kept of a core.
    fn of(core: &Core) -> Before
        ensures { IsBefore core.now.core result }
    {
        Before {
            threads: *core.threads(),
            last: core.last_issues(),
        }
    }
}

/// Keeps what the nodes of a machine are right before the next slot, by position.
pub(crate) fn keep(machine: &SerialMachine, befores: &mut [Before])
    requires begun { machine.now.begun ≡ begun_at_start machine.now.plan }
    requires few { length machine.now.plan.nodes ≤ 16 }
    requires nodes { length befores.old ≡ length machine.now.plan.nodes }
    ensures kept { AreBefore machine.now.plan machine.now.now befores.new }
    ensures nodes { length befores.new ≡ length befores.old }
{
    machines_are_serial();
    for n in 0..befores.len() {
        befores[n] = Before::of(machine.core(n as u8));
    }
}
