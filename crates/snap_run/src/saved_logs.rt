//! What a snapshot keeps of the directed links and the wires of a run.
ghost use Rattle.std.specs.Prelude.{◌≡◌, ◌<◌, map, IfOk};
ghost use Rattle.std.specs.List.{AllByRecursion};
ghost use Rattle.xs_base.specs.declared.entry.Entry.{Entry};
ghost use Rattle.sys_plan.specs.Plan.{arcs, arc_count};
ghost use Rattle.serial_model.specs.Serial.{serial, begun_at_start};
ghost use Rattle.locality_laws.specs.Locality.{history_in};
ghost use Rattle.snap_parts.specs.Parts.{seen};
ghost use Rattle.snap_model.specs.Saved.{saved_logs};

use crate::keeping::saved_log;
use locality_laws::links_tell_ahead;
use run_plan::{SerialMachine, machines_are_serial};
use snap_parts::SnapLog;
use std::alloc::{AllocError, Global};
use sys_plan::Plan;
use xs_base::Entry;

/// What a snapshot keeps of the arcs of a plan, by number, which a machine has run from slot 0 on. The error is want of memory.
pub(crate) fn saved_logs(
    alloc: Global,
    plan: &Plan,
    machine: &SerialMachine,
) -> Result<Vec<SnapLog>, AllocError>
    requires plan { machine.now.plan ≡ plan.now }
    requires start { machine.now.begun ≡ begun_at_start plan.now }
    ensures saved { IfOk result (λ v. map seen v.items ≡ saved_logs machine.now.now (arcs plan.now) (serial plan.now machine.now.now).histories) }
{
    let directed = 2 * plan.links().len();
    let count = directed + plan.wires().len();
    let mut logs = Vec::new(alloc);
    for k in 0..count {
        let history = history_of(plan, machine, k as u32);
        let delay = plan.delay(k as u32);
        let log = saved_log(alloc, history, delay, directed <= k, machine.now())?;
        logs.push(log)?;
    }
    Ok(logs)
}

// The history of the arc with a number: all of it was sent before the slot that the machine has come to.
fn history_of<'a>(plan: &Plan, machine: &'a SerialMachine, link: u32) -> &'a [Entry]
    requires plan { machine.now.plan ≡ plan.now }
    requires start { machine.now.begun ≡ begun_at_start plan.now }
    requires link { link < arc_count plan.now }
    ensures value { result.now ≡ history_in (serial plan.now machine.now.now).histories link }
    ensures before { AllByRecursion (λ (e : Entry). e.slot < machine.now.now) result.now }
{
    links_tell_ahead();
    machines_are_serial();
    machine.history(link)
}
