ghost use Rattle.std.specs.Prelude.{◌≡◌, ◌≤◌, length, map, IfOk};
ghost use Rattle.system_model.specs.System.{link_plan, position_by_number};

use std::alloc::{AllocError, Global};
use sys_plan::LinkPlan;
use system_model::{GivenNode, LinkLine};

// The plans of links between nodes.
pub fn link_plans(
    alloc: Global,
    nodes: &[GivenNode],
    links: &[LinkLine],
) -> Result<Vec<LinkPlan>, AllocError>
    requires few { length nodes.now ≤ 16 }
    ensures plans { IfOk result (λ plans. plans.items ≡ map (link_plan nodes.now) links.now) }
{
    let mut plans = Vec::new(alloc);
    for link in links {
        plans.push(LinkPlan {
            a: position_by_number(nodes, link.a.node),
            a_end: link.a.end,
            b: position_by_number(nodes, link.b.node),
            b_end: link.b.end,
            delay: link.delay,
            gap: link.gap,
            net: link.net,
        })?;
    }
    Ok(plans)
}

// Where a node stands by ascending number: the count of the nodes of lesser numbers.
pub fn position_by_number(nodes: &[GivenNode], number: u8) -> u8
    requires few { length nodes.now ≤ 16 }
    ensures { result ≡ position_by_number nodes.now number }
{
    nodes.iter().filter(|node| node.number < number).count() as u8
}
