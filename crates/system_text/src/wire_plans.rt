ghost use Rattle.std.specs.Prelude.{◌≡◌, ◌≤◌, length, map, IfOk};
ghost use Rattle.system_model.specs.System.{wire_plan};

use crate::link_plans::position_by_number;
use std::alloc::{AllocError, Global};
use sys_plan::WirePlan;
use system_model::{GivenNode, WireLine};

// The plans of wires between nodes.
pub fn wire_plans(
    alloc: Global,
    nodes: &[GivenNode],
    wires: &[WireLine],
) -> Result<Vec<WirePlan>, AllocError>
    requires few { length nodes.now ≤ 16 }
    ensures plans { IfOk result (λ plans. plans.items ≡ map (wire_plan nodes.now) wires.now) }
{
    let mut plans = Vec::new(alloc);
    for wire in wires {
        plans.push(WirePlan {
            a: position_by_number(nodes, wire.a.node),
            a_port: wire.a.port,
            b: position_by_number(nodes, wire.b.node),
            b_port: wire.b.port,
            delay: wire.delay,
        })?;
    }
    Ok(plans)
}
