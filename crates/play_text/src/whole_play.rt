//! The lines of a play.
ghost use Rattle.std.specs.Prelude.{◌≡◌, ◌++◌, length, map, IfOk, OnOk};
ghost use Rattle.std.specs.List.{AllByRecursion, flat_map};
ghost use Rattle.play_model.specs.PlayText.{play_text, played_lines};
ghost use Rattle.run_drive.specs.Played.{line_of};
ghost use Rattle.play_text.specs.Steps.{IsOfNodes};

use crate::step_lines::append_step;
use run_drive::{PlayLine, Played};
use std::alloc::{AllocError, Global};
use sys_plan::{NodePlan, Plan};
use xs_base::Text;

/// The text of what a play of a plan tells: the lines of each step in order, and `end play`. The error is want of memory. See
/// docs/OUTPUT.md.
pub fn play(alloc: Global, plan: &Plan, played: &Played) -> Result<Text, AllocError>
    requires plan { played.now.plan ≡ plan.now }
    ensures text { IfOk result (λ t. t ≡ play_text plan.now played.now.limit) }
{
    let nodes = plan.nodes();
    let mut out = Text::new(alloc);
    append_steps(&mut out, nodes, played.lines())?;
    out.append(b"end play\n")?;
    Ok(out)
}

// The lines of all steps.
fn append_steps(out: &mut Text, nodes: &[NodePlan], lines: &[PlayLine]) -> Result<(), AllocError>
    requires nodes { AllByRecursion (IsOfNodes (length nodes.now)) lines.now }
    ensures { OnOk result (out.new ≡ out.old ++ flat_map (played_lines nodes.now) (map line_of lines.now)) }
{
    for line in lines {
        append_step(out, nodes, line)?;
    }
    Ok(())
}
