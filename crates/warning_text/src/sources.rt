//! What may be wrong in the sources of all nodes.
ghost use Rattle.std.specs.Prelude.{◌≡◌, ◌<◌, ◌^◌, ◌++◌, false, length, flat_map, OnOk};
ghost use Rattle.xs_text.specs.Lines.{lines_of};
ghost use Rattle.warning_model.specs.Warnings.{warnings_of_source_of};

use crate::sections::{begins_section, begins_source};
use crate::source::add_source;
use crate::warning::Warnings;
use frame_lines::is_end;
use std::alloc::{AllocError, Global};
use sys_plan::Plan;
use xs_text::Lines;

// Of the source of the node with a number. The error is want of memory, here and below.
#[tactic(auto, unfolding(warning_model::specs::Warnings::warnings_of_source_of))]
fn add_source_of<'a>(
    alloc: Global,
    warnings: &mut Warnings<'a>,
    plan: &Plan,
    node: u8,
    text: &'a [u8],
) -> Result<(), AllocError>
    requires { length text.now < 2 ^ 31 }
    ensures { OnOk result (warnings.new ≡ warnings.old ++ warnings_of_source_of plan.now node 1 false (lines_of text.now)) }
{
    let mut lines = Lines::new(text);
    let mut inside = false;
    while let Some(line) = lines.next_line() {
        let bytes = &text[line.from..line.to];
        if inside {
            inside = !is_end(bytes);
        } else if begins_source(node, bytes) {
            return add_source(
                alloc,
                warnings,
                plan.nodes(),
                node,
                line.number,
                lines.rest(),
            );
        } else {
            inside = begins_section(bytes);
        }
    }
    Ok(())
}

/// Of the sources, by ascending number of the node.
pub(crate) fn add_sources<'a>(
    alloc: Global,
    warnings: &mut Warnings<'a>,
    plan: &Plan,
    text: &'a [u8],
) -> Result<(), AllocError>
    requires { length text.now < 2 ^ 31 }
    ensures { OnOk result (warnings.new ≡ warnings.old ++ flat_map (λ node. warnings_of_source_of plan.now node.number 1 false (lines_of text.now)) plan.now.nodes) }
{
    for node in plan.nodes() {
        add_source_of(alloc, warnings, plan, node.number, text)?;
    }
    Ok(())
}
