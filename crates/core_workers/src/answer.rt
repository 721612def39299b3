//! What a turn answers.
ghost use Rattle.std.specs.Prelude.{◌≡◌, ◌≤◌, ◌++◌, None, IsSome, List, [], All};
ghost use Rattle.xs_base.specs.Numbers.{EndNumber};
ghost use Rattle.plan_cells.specs.declared.ends.Incoming as incoming_end;
ghost use Rattle.node_runners.specs.Runner.{Stops};
ghost use Rattle.core_workers.specs.Worker.{WorkerRec, IsWorker, Outcome, AnswersBy, unheard_ends};
ghost use Rattle.core_workers.specs.Steps.{IsLeastOf, Explains, AreOfPlan, NamesLeast};

use crate::least::{least_end, least_shut, least_stop, least_unheard, least_untold};
use crate::turn::Turn;
use node_runners::{NodeRunner, Ran};
use plan_cells::{Ends, Incoming, PlanCells};
use sys_plan::Plan;

/// What a turn of a worker answers that began at a slot and came to another, where this has stopped the node.
pub(crate) fn answer_of(
    cells: &PlanCells,
    runner: &NodeRunner,
    ends: &Ends,
    from: u32,
    to: u32,
    ran: Ran,
) -> Turn
    requires worker { IsWorker (record { cells = cells.now; runner = runner.now; ends = ends.now }) }
    requires none_in_hand { All (λ (i : incoming_end.Incoming). i.hand ≡ None) ends.now.incoming.items }
    requires from { from ≤ to }
    requires to { to ≡ runner.now.clock }
    requires stops { Stops runner.now.horizon runner.now.clock ran }
    ensures answer { AnswersBy (record { plan = cells.now.plan; from = from; clock = to; limit = runner.now.horizon.limit; incoming = ends.now.incoming.items; outgoing = ends.now.outgoing.items }) result }
{
    let untold = least_untold(&ends.outgoing, to);
    match ran {
        Ran::Slot => unreachable!(),
        Ran::AtLimit => match untold {
            None => Turn::Finished,
            Some(_) if from < to => Turn::Ran { from, to },
            Some(_) => busy(&ends.incoming, untold),
        },
        Ran::Blocked { .. } if from < to => Turn::Ran { from, to },
        Ran::Blocked { .. } => match explained(cells.plan(), &ends.incoming, to) {
            Some(turn) => turn,
            None => busy(&ends.incoming, untold),
        },
    }
}

// Why a node runs no slot, by the logs that were looked at: one was found closed, or lets it run no further. None comes exactly where
// neither is so.
fn explained(plan: &Plan, readers: &[Incoming], clock: u32) -> Option<Turn>
    requires of_plan { AreOfPlan plan.now readers.now }
    ensures { Explains plan.now clock readers.now result }
{
    if let Some(link) = least_shut(readers) {
        return Some(Turn::Stopped { link });
    }
    match least_stop(plan, readers, clock) {
        Some((end, seen)) => Some(Turn::Blocked { end, seen }),
        None => None,
    }
}

// The answer where neither tells why: a cell was in use. `untold` is the least end of what is not published.
fn busy(readers: &[Incoming], untold: Option<u8>) -> Turn
    requires some { unheard_ends readers.now ≡ [] → IsSome untold }
    ensures { (ends : List EndNumber) → IsLeastOf untold ends → NamesLeast (unheard_ends readers.now ++ ends) result }
{
    match least_end(least_unheard(readers), untold) {
        Some(end) => Turn::Busy { end },
        None => unreachable!(),
    }
}
