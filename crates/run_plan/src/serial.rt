//! What a machine has become that began at slot 0. See docs/MACHINE.md.
ghost use Rattle.run_plan.specs.Machine.{WholeRunIsSerial};

use begun_laws::systems_go_on;

/// A machine that began with a system as it starts has become what the serial machine has. It does nothing.
pub fn machines_are_serial()
    ensures serial { WholeRunIsSerial }
{
    systems_go_on();
}
