//! `Lane`, an arc of a plan: its log, and both ends of it.
ghost use Rattle.std.specs.Prelude.{◌<◌, IfOk, length};
ghost use Rattle.sys_plan.specs.Plan.{arc_count};
ghost use Rattle.plan_lanes.specs.Lanes.{IsNewLane};

use link_logs::{Log, ReadEnd, WriteEnd, make_log};
use plan_stories::PlanStory;
use std::alloc::{AllocError, Global};
use std::sync::Arc;
use sys_plan::Plan;

/// The log of an arc, with both of its ends, where one and the same caller writes and reads it.
#[derive(Drop)]
pub struct Lane {
    pub log: Log<PlanStory>,
    pub w: WriteEnd<PlanStory>,
    pub r: ReadEnd<PlanStory>,
}

impl Lane {
    /// The lane of the arc with a number. The error is want of memory.
    pub fn new(alloc: Global, plan: &Arc<Plan>, link: u32) -> Result<Lane, AllocError>
        requires link { link < arc_count plan.now.value }
        ensures lane { IfOk result (λ lane. IsNewLane plan.now.value link lane) }
    {
        let story = PlanStory::new(plan, link)?;
        let (log, w, r) = make_log(alloc, story)?;
        Ok(Lane { log, w, r })
    }
}
