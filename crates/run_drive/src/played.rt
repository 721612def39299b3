//! `Played`, what a play of a plan's schedule tells.
ghost use Rattle.std.specs.Prelude.{◌≡◌, map};
ghost use Rattle.play_model.specs.Play.{played};
ghost use Rattle.run_drive.specs.Played.{line_of};

use known_value::Known;
use std::marker::Model;
use sys_plan::{Plan, Step};
use xs_base::Batch;

/// A step of a schedule once it is done: the slot that it leaves, which of a take is how much is seen of the link or wire, of a run the
/// clock of the node and of a send how much is published, and the entries that it published, of which only a send has any.
/// See docs/LOOKAHEAD.md.
#[derive(Drop)]
pub struct PlayLine {
    pub step: Step,
    pub number: u32,
    pub batch: Batch,
}

/// What a play of a plan's schedule in a run of so many slots tells, step by step. There is none that tells anything else.
/// Contracts see the plan and the limit as a `PlayedRec` of `Rattle.run_drive.specs.Played`. See docs/LOOKAHEAD.md.
#[derive(Drop)]
pub struct Played {
    plan: Known<Plan>,
    limit: u32,
    lines: Vec<PlayLine>,
}

impl Model for Played {
    ghost use Rattle.std.specs.Prelude.{◌≡◌, map};
    ghost use Rattle.play_model.specs.Play.{played};
    ghost use Rattle.run_drive.specs.Played.{PlayedRec, line_of};

    ghost Value = { PlayedRec };

    ghost view = { λ p. record { plan = p.plan.value; limit = p.limit } };

    ghost invariant = { λ p. map line_of p.lines.items ≡ played p.plan.value p.limit };
}

impl Played {
    /// What these lines tell of a plan. It takes no memory.
    pub(crate) fn of(plan: &Plan, limit: u32, lines: Vec<PlayLine>) -> Played
        requires lines { map line_of lines.items ≡ played plan.now limit }
        ensures value { result ≡ record { plan = plan.now; limit = limit } }
    {
        Played {
            plan: Known::of(plan),
            limit,
            lines,
        }
    }

    /// How many slots the run has.
    pub fn limit(&self) -> u32
        ensures value { result ≡ self.now.limit }
    {
        self.limit
    }

    /// What each step left and published, in the order of the plan's steps.
    pub fn lines(&self) -> &[PlayLine]
        ensures value { map line_of result.now ≡ played self.now.plan self.now.limit }
    {
        self.lines.as_slice()
    }
}
