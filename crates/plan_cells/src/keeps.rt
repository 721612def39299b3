//! What the cell of an arc keeps, as a law.
ghost use Rattle.sys_plan.specs.Plan.{PlanRec};
ghost use Rattle.log_cells.specs.Keeps.{CellState, IsMoment};
ghost use Rattle.plan_cells.specs.Ends.{IsLogOf};

use link_logs::Log;
use log_cells::Cell;
use plan_stories::{PlanStory, history_in};

/// What the cell of an arc keeps between any two steps of any two threads beside what every cell does (`Cell::keeps`), at a moment at which its log is as
/// `log` is: that is the arc's history in the serial machine, from its base on and before the published slot. It does nothing.
pub fn log_is_history(cell: &Cell<PlanStory>, log: &Log<PlanStory>)
    ensures history { (s : CellState PlanRec) → IsMoment cell.now s log.now → IsLogOf cell.now.run cell.now.number log.now }
{
    cell.keeps(log);
    // What every log keeps is told where its entries are read.
    let _entries = log.entries();
    let _history = history_in(log);
}
