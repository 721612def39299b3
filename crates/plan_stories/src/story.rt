//! `PlanStory`, what names an arc of the run of a plan. See docs/LOOKAHEAD.md.
ghost use Rattle.std.specs.Prelude.{◌≡◌, IfOk};
ghost use Rattle.plan_stories.specs.Stories.{carried_at};
ghost use Rattle.locality_laws.proofs.Links.{slots_carry_few};

use link_logs::Story;
use std::alloc::{AllocError, Global};
use std::marker::Model;
use std::sync::Arc;
use sys_plan::Plan;

/// An arc of the run of a plan: what it carries in each slot is what it carries in the serial machine. It is one more owner of
/// the plan. Contracts see a `StoryRec` of `Rattle.plan_stories.specs.Stories`.
#[derive(Drop)]
pub struct PlanStory {
    plan: Arc<Plan, Global>,
    link: u32,
}

impl Model for PlanStory {
    ghost use Rattle.plan_stories.specs.Stories.{StoryRec};

    ghost Value = { StoryRec };

    ghost view = { λ s. record { plan = s.plan.value; link = s.link } };
}

impl PlanStory {
    /// The arc of a plan with a number. It takes no memory; the error is that the plan has 2^63 - 1 owners already.
    pub fn new(plan: &Arc<Plan, Global>, link: u32) -> Result<PlanStory, AllocError>
        ensures story { IfOk result (λ s. s ≡ record { plan = plan.now.value; link = link }) }
    {
        let plan = Arc::try_clone(plan)?;
        Ok(PlanStory { plan, link })
    }
}

impl Story for PlanStory {
    ghost use Rattle.plan_stories.specs.Stories.{StoryRec};

    type Run = Plan;

    ghost run = { λ (s : StoryRec). s.plan };

    ghost number = { λ (s : StoryRec). s.link };

    ghost entries_at = { carried_at };

    fn link(&self) -> u32 {
        self.link
    }

    ghost at_most_two = { λ plan link slot. (slots_carry_few plan link slot).few };
}
