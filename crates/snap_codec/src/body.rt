//! What a snapshot keeps beside its text.
ghost use Rattle.std.specs.Prelude.{◌≡◌, ◌<◌, ◌^◌, ◌++◌, length, OnOk};
ghost use Rattle.std.specs.List.{AllByRecursion};
ghost use Rattle.sys_plan.specs.Plan.{PlanRec};
ghost use Rattle.snap_parts.specs.Parts.{body_of};
ghost use Rattle.byte_forms.specs.Reading.{Gives};
ghost use Rattle.snap_codec.specs.Body.{body};
ghost use Rattle.snap_codec.specs.Reads.{GivesWhole};

use crate::logs::{read_links, read_wires, write_logs};
use crate::nodes::{read_nodes, write_nodes};
use byte_forms::{Fault, Reader, write_word};
use snap_parts::SnapSystem;
use std::alloc::{AllocError, Global};
use sys_plan::Plan;
use xs_base::Text;

/// Reads all after the text, which has this plan, to the last of the bytes.
pub(crate) fn read_rest(alloc: Global, from: &mut Reader, plan: &Plan) -> Result<SnapSystem, Fault>
    ensures value { GivesWhole (body plan.now) body_of from.old result }
{
    let system = read_body(alloc, from, plan)?;
    from.end()?;
    Ok(system)
}

// Reads the slot, the nodes, and the directed links and wires.
#[tactic(auto, unfolding(crate::specs::Body::body))]
fn read_body(alloc: Global, from: &mut Reader, plan: &Plan) -> Result<SnapSystem, Fault>
    ensures value { Gives (body plan.now) body_of from.old result from.new }
{
    let slot = from.read_word()?;
    let nodes = read_nodes(alloc, from, plan, slot)?;
    let mut logs = read_links(alloc, from, plan, slot, &nodes)?;
    let mut wires = read_wires(alloc, from, plan, slot)?;
    logs.append(&mut wires)?;
    Ok(SnapSystem { slot, nodes, logs })
}

/// Writes the slot, the nodes, and the directed links and wires. The error is want of memory.
pub(crate) fn write_body(out: &mut Text, system: &SnapSystem) -> Result<(), AllocError>
    requires few { AllByRecursion (λ log. length log.entries.entries < 2 ^ 32) system.now.logs.items }
    ensures value { OnOk result ((plan : PlanRec) → (body plan).Holds (body_of system.now) → out.new ≡ out.old ++ (body plan).write (body_of system.now)) }
{
    write_word(out, system.slot)?;
    write_nodes(out, &system.nodes)?;
    write_logs(out, &system.logs)
}
