//! What a snapshot keeps of the nodes of a run.
ghost use Rattle.std.specs.Prelude.{◌≡◌, ◌<◌, length, IfOk};
ghost use Rattle.serial_model.specs.Serial.{serial, begun_at_start};
ghost use Rattle.locality_laws.specs.Locality.{node_in, events_in};
ghost use Rattle.snap_model.specs.Saved.{saved_node, saved_nodes};

use core_step::NodeState;
use run_plan::{SerialMachine, machines_are_serial};
use snap_parts::SnapNode;
use std::alloc::{AllocError, Global};
use sys_plan::Plan;

/// What a snapshot keeps of the nodes of a plan, which a machine has run from slot 0 on. The error is want of memory.
pub(crate) fn saved_nodes(
    alloc: Global,
    plan: &Plan,
    machine: &SerialMachine,
) -> Result<Vec<SnapNode>, AllocError>
    requires plan { machine.now.plan ≡ plan.now }
    requires start { machine.now.begun ≡ begun_at_start plan.now }
    ensures saved { IfOk result (λ v. v.items ≡ saved_nodes (serial plan.now machine.now.now).nodes (serial plan.now machine.now.now).events) }
{
    let mut nodes = Vec::new(alloc);
    for n in 0..plan.nodes().len() {
        let node = saved_node(alloc, plan, machine, n as u8)?;
        nodes.push(node)?;
    }
    Ok(nodes)
}

// What a snapshot keeps of the node at a position.
fn saved_node(
    alloc: Global,
    plan: &Plan,
    machine: &SerialMachine,
    n: u8,
) -> Result<SnapNode, AllocError>
    requires plan { machine.now.plan ≡ plan.now }
    requires start { machine.now.begun ≡ begun_at_start plan.now }
    requires node { n < length plan.now.nodes }
    ensures saved { IfOk result (λ node. node ≡ saved_node (node_in (serial plan.now machine.now.now) n) (events_in (serial plan.now machine.now.now) n)) }
{
    machines_are_serial();
    let events = machine.events(n);
    let mut state = NodeState::new(alloc)?;
    machine.core(n).state(&mut state);
    Ok(SnapNode {
        kept: events.events().len() as u32,
        more: events.more(),
        state,
    })
}
