//! `drive_serial`, which runs all nodes together.
ghost use Rattle.std.specs.Prelude.{◌≡◌, IfOk};

use crate::error::DriveError;
use core_workers::{Finished, Way};
use run_plan::SerialMachine;
use std::alloc::Global;
use std::sync::Arc;
use sys_plan::Plan;

/// Runs a plan for so many slots, all nodes together, over slots in which nothing happens at any node at once. The error is want of memory. See docs/MACHINE.md.
pub fn drive_serial(alloc: Global, plan: &Arc<Plan>, limit: u32) -> Result<Finished, DriveError>
    ensures at_limit { IfOk result (λ f. f ≡ record { plan = plan.now.value; limit = limit; way = Way.Serial; rounds = 0 }) }
{
    let mut machine = SerialMachine::new(alloc, plan)?;
    machine.run(limit)?;
    Ok(Finished::of_serial(machine))
}
