//! The plan of a snapshot.
ghost use Rattle.std.specs.Prelude.{IfOk};
ghost use Rattle.snap_codec.specs.Snaps.{IsSnap};

use snap_codec::Snap;
use std::alloc::{AllocError, Global};
use sys_plan::Plan;
use system_text::{SystemError, read_system};

/// The plan of a snapshot. Its text is refused by no reader, since it is that of some plan. The error is want of memory.
pub(crate) fn plan_of(alloc: Global, snap: &Snap) -> Result<Plan, AllocError>
    ensures plan { IfOk result (λ plan. IsSnap plan snap.now) }
{
    match read_system(alloc, snap.text()) {
        Ok(plan) => Ok(plan),
        Err(SystemError::Memory) => Err(AllocError),
        Err(_) => unreachable!(),
    }
}
