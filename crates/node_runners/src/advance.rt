//! A node that runs as far as it may, over quiet slots at once.
ghost use Rattle.std.specs.Prelude.{◌≡◌, ◌≤◌, true, IfOk};
ghost use Rattle.ahead_limits.specs.Horizon.{may_run};
ghost use Rattle.busy_slots.specs.Busy.{is_busy};
ghost use Rattle.node_runners.specs.Runner.{Stops};
ghost use Rattle.node_runners.specs.Busy.{HasSteppedBusy, RunsOn};

use crate::runner::{NodeRunner, Ran};
use busy_slots::{busy_slots_are_counted, idle_where_not_busy};
use std::alloc::AllocError;

impl NodeRunner {
    /// Runs slots of the node until an end stops it or it is at the limit, and tells which: it goes over quiet slots at once and steps
    /// the busy ones. Where all that it stepped before were the busy ones below its clock, they are so after it. The error is want of
    /// memory: it has run on as far as it came.
    pub fn run_on(&mut self) -> Result<Ran, AllocError>
        requires busy { HasSteppedBusy self.old }
        ensures rest { self.new ≡ record self.old { clock = self.new.clock; stepped = self.new.stepped } }
        ensures on { self.old.clock ≤ self.new.clock }
        ensures stops { IfOk result (λ ran. Stops self.new.horizon self.new.clock ran) }
        ensures busy { HasSteppedBusy self.new }
    {
        busy_slots_are_counted();
        loop {
            pass_quiet_slots(self);
            match self.run_slot()? {
                Ran::Slot => {}
                Ran::Blocked { end, seen } => return Ok(Ran::Blocked { end, seen }),
                Ran::AtLimit => return Ok(Ran::AtLimit),
            }
        }
    }
}

// Goes over the quiet slots from the clock of a node on: where the node may run on, the slot that it comes to is busy.
#[inline]
#[tactic(auto, using(crate::proofs::Counting::quiet_passed))]
fn pass_quiet_slots(runner: &mut NodeRunner)
    requires busy { HasSteppedBusy runner.old }
    ensures on { RunsOn runner.old runner.new }
    ensures busy { may_run runner.new.horizon runner.new.clock ≡ true → is_busy runner.new.plan runner.new.node runner.new.clock ≡ true }
{
    idle_where_not_busy();
    runner.skip();
}
