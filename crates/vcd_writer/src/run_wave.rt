//! `wave`, the wave of a run.
ghost use Rattle.std.specs.Prelude.{◌≡◌, IfOk};
ghost use Rattle.wave_model.specs.Runs.{wave_text};

use crate::changes::with_changes;
use crate::declared::append_declarations;
use crate::wave_text::append_slot_line;
use std::alloc::{AllocError, Global};
use sys_plan::Plan;
use xs_base::Text;

/// The wave of a run of a plan for `limit` slots, all nodes together, as a value change dump: of every pin the level that it shows at the end
/// of each slot. The error is want of memory. See docs/WAVES.md.
pub fn wave(alloc: Global, plan: &Plan, limit: u32) -> Result<Text, AllocError>
    ensures text { IfOk result (λ text. text ≡ wave_text plan.now limit) }
{
    let mut text = Text::new(alloc);
    append_declarations(&mut text, plan)?;
    if limit > 0 {
        append_slot_line(&mut text, 0)?;
        text = with_changes(alloc, text, plan, limit)?;
    }
    append_slot_line(&mut text, limit)?;
    Ok(text)
}
