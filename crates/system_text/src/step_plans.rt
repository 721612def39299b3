ghost use Rattle.std.specs.Prelude.{◌≡◌, ◌≤◌, length, map, IfOk};
ghost use Rattle.system_model.specs.System.{step_plan};

use crate::link_plans::position_by_number;
use std::alloc::{AllocError, Global};
use sys_plan::Step;
use system_model::{GivenNode, PlayLine};

// The steps of a schedule, with their nodes by position.
pub fn step_plans(
    alloc: Global,
    nodes: &[GivenNode],
    lines: &[PlayLine],
) -> Result<Vec<Step>, AllocError>
    requires few { length nodes.now ≤ 16 }
    ensures steps { IfOk result (λ steps. steps.items ≡ map (step_plan nodes.now) lines.now) }
{
    let mut steps = Vec::new(alloc);
    for line in lines {
        steps.push(step_plan(nodes, *line))?;
    }
    Ok(steps)
}

// A step with its node by position.
fn step_plan(nodes: &[GivenNode], line: PlayLine) -> Step
    requires few { length nodes.now ≤ 16 }
    ensures { result ≡ step_plan nodes.now line }
{
    match line {
        PlayLine::Take(name) => Step::Take {
            node: position_by_number(nodes, name.node),
            end: name.end,
        },
        PlayLine::Run { node, count } => Step::Run {
            node: position_by_number(nodes, node),
            count,
        },
        PlayLine::Send(name) => Step::Send {
            node: position_by_number(nodes, name.node),
            end: name.end,
        },
    }
}
