//! A slot of a serial run, and what is told of it.
ghost use Rattle.std.specs.Prelude.{◌≡◌, ◌+◌, ◌-◌, ◌^◌, ◌<◌, length, OnOk, OnErr};
ghost use Rattle.serial_model.specs.Serial.{begun_at_start};
ghost use Rattle.told_run.specs.Kept.{AreToldIn, AreWithin, IsWithin};

use core_step::Told;
use run_plan::{SerialMachine, machines_are_serial};
use std::alloc::AllocError;

/// What is told of no slot: nobody is able to issue, and nobody does.
pub(crate) fn nothing_told() -> Told
    ensures { IsWithin result }
{
    Told {
        able: 0,
        issue: None,
        traps: false,
    }
}

/// Passes the next slot of a machine, and puts what is told of each node into `told`, by position. The error is want of memory, and changes
/// nothing.
pub(crate) fn tell(machine: &mut SerialMachine, told: &mut [Told]) -> Result<(), AllocError>
    requires begun { machine.old.begun ≡ begun_at_start machine.old.plan }
    requires now { machine.old.now < 2 ^ 32 - 1 }
    requires nodes { length told.old ≡ length machine.old.plan.nodes }
    ensures plan { machine.new.plan ≡ machine.old.plan }
    ensures begun { machine.new.begun ≡ machine.old.begun }
    ensures passed { OnOk result (machine.new.now ≡ machine.old.now + 1) }
    ensures told { OnOk result (AreToldIn machine.old.plan machine.old.now told.new) }
    ensures within { OnOk result (AreWithin told.new) }
    ensures nodes { length told.new ≡ length told.old }
    ensures err { OnErr result (machine.new ≡ machine.old) }
    ensures kept { OnErr result (told.new ≡ told.old) }
{
    machines_are_serial();
    machine.slot_told(told)
}
