//! The rest of a run that goes on from a snapshot.
ghost use Rattle.std.specs.Prelude.{◌≡◌, ◌≤◌, IfOk};
ghost use Rattle.sys_plan.specs.Plan.{PlanRec};
ghost use Rattle.system_model.specs.System as stands;
ghost use Rattle.system_model.specs.System.{system_of};
ghost use Rattle.snap_model.specs.Rest.{rest_text};

use crate::snap_plan::plan_of;
use crate::went_on::RunOn;
use snap_codec::Snap;
use std::alloc::{AllocError, Global};
use trace_text::end_text;
use xs_base::Text;

/// The rest of the trace of a run of so many slots that goes on from a snapshot: the lines of the events from its slot on, and what the whole
/// run has come to. The error is want of memory. See docs/SNAPSHOTS.md.
pub fn rest_of(alloc: Global, snap: &Snap, limit: u32) -> Result<Text, AllocError>
    requires limit { snap.now.body.slot ≤ limit }
    ensures text { IfOk result (λ t. (plan : PlanRec) → system_of snap.now.text ≡ stands.Plan plan → t ≡ rest_text plan snap.now.body limit) }
{
    let plan = plan_of(alloc, snap)?;
    let went = RunOn::to(alloc, &plan, snap, limit)?;
    end_text(alloc, &plan, went)
}
