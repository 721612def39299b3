//! `drive_play`, a plan's schedule played to its end.
ghost use Rattle.std.specs.Prelude.{◌≡◌, IfOk, map};
ghost use Rattle.play_model.specs.Play.{played};
ghost use Rattle.run_drive.specs.Played.{line_of};

use crate::error::DriveError;
use crate::played::{PlayLine, Played};
use crate::stage::Stage;
use std::alloc::{AllocError, Global};
use std::sync::Arc;
use sys_plan::Plan;

/// Plays all steps of a plan's schedule, in a run of so many slots: what each of them leaves and publishes. The error is want of
/// memory. See docs/LOOKAHEAD.md.
pub fn drive_play(alloc: Global, plan: &Arc<Plan>, limit: u32) -> Result<Played, DriveError>
    ensures value { IfOk result (λ p. p ≡ record { plan = plan.now.value; limit = limit }) }
{
    let lines = lines_of(alloc, plan, limit)?;
    Ok(Played::of(plan, limit, lines))
}

// The lines of all steps, in order.
fn lines_of(alloc: Global, plan: &Arc<Plan>, limit: u32) -> Result<Vec<PlayLine>, AllocError>
    ensures told { IfOk result (λ lines. map line_of lines.items ≡ played plan.now.value limit) }
{
    let mut stage = Stage::new(alloc, plan, limit)?;
    let mut lines = Vec::new(alloc);
    for step in plan.steps() {
        let line = stage.step(alloc, plan, *step)?;
        lines.push(line)?;
    }
    Ok(lines)
}
