//! `PlanCells`, the cells of a plan's arcs.
ghost use Rattle.std.specs.Prelude.{◌≡◌, ◌<◌, Some, IfOk, length, slice_get};
ghost use Rattle.std.specs.List.{AllByRecursion};
ghost use Rattle.xs_base.specs.Numbers.{Position, LinkNumber};
ghost use Rattle.sys_plan.specs.Plan.{PlanRec, arc_count};
ghost use Rattle.link_logs.specs.Logs.{LogRec};
ghost use Rattle.plan_cells.specs.declared.ends.Ends.{Ends};
ghost use Rattle.plan_cells.specs.Ends.{AreEnds, AreNewEnds, IsLogOf, HasLeft, HasRead};

use crate::deal::{deal_all, no_ends};
use crate::ends::Ends;
use crate::gather::logs_of;
use link_logs::Log;
use log_cells::Cell;
use plan_stories::PlanStory;
use std::alloc::{AllocError, Global};
use std::marker::Model;
use std::sync::Arc;
use sys_plan::Plan;

/// The cells of a plan's arcs, by number. It is one more owner of the plan. Contracts see a `CellsRec` of
/// `Rattle.plan_cells.specs.Ends`. See docs/LOOKAHEAD.md.
#[derive(Drop)]
pub struct PlanCells {
    plan: Arc<Plan>,
    cells: Vec<Cell<PlanStory>>,
}

impl Model for PlanCells {
    ghost use Rattle.plan_cells.specs.Ends.{CellsRec};

    ghost Value = { CellsRec };

    ghost use Rattle.plan_cells.specs.Inside.{AreCells, cells_of};

    ghost view = { λ c. cells_of c.plan.value c.cells.items };

    ghost invariant = { λ c. AreCells c.plan.value c.cells.items };
}

impl PlanCells {
    /// A new cell for each arc of a plan, and the ends of these cells that each node holds, by position. The error is want
    /// of memory.
    pub fn new(alloc: Global, plan: &Arc<Plan>) -> Result<(PlanCells, Vec<Ends>), AllocError>
        ensures plan { IfOk result (λ made. made.0.plan ≡ plan.now.value) }
        ensures links { IfOk result (λ made. length made.0.tables ≡ arc_count plan.now.value) }
        ensures nodes { IfOk result (λ made. length made.1.items ≡ length plan.now.value.nodes) }
        ensures ends { IfOk result (λ made. (n : Position) (ends : Ends) → slice_get made.1.items n ≡ Some ends → AreNewEnds made.0 n ends) }
    {
        let mut all = no_ends(alloc, plan.nodes().len())?;
        let cells = deal_all(alloc, plan, &mut all)?;
        let plan = Arc::try_clone(plan)?;
        Ok((PlanCells { plan, cells }, all))
    }

    /// The plan.
    pub fn plan(&self) -> &Plan
        ensures value { result.now ≡ self.now.plan }
    {
        &self.plan
    }

    /// The cell of the arc with a number.
    pub fn cell(&self, link: u32) -> &Cell<PlanStory>
        requires link { link < length self.now.tables }
        ensures table { slice_get self.now.tables link ≡ Some result.now.table }
        ensures run { result.now.run ≡ self.now.plan }
        ensures number { result.now.number ≡ link }
    {
        &self.cells[link as usize]
    }

    /// The logs of all arcs, by number, where the ends of all nodes are given back, by position: each log is as its write
    /// end has left it, and begins where its read end has read to. The error is want of memory, and leaves nothing.
    pub fn logs(self, alloc: Global, all: Vec<Ends>) -> Result<Vec<Log<PlanStory>>, AllocError>
        requires nodes { length all.items ≡ length self.plan.nodes }
        requires ends { (n : Position) (ends : Ends) → slice_get all.items n ≡ Some ends → AreEnds self n ends }
        ensures links { IfOk result (λ logs. length logs.items ≡ arc_count self.plan) }
        ensures own { IfOk result (λ logs. (link : LinkNumber) (log : LogRec PlanRec) → slice_get logs.items link ≡ Some log → IsLogOf self.plan link log) }
        ensures left { IfOk result (λ logs. (n : Position) (ends : Ends) → slice_get all.items n ≡ Some ends → AllByRecursion (HasLeft logs.items) ends.outgoing.items) }
        ensures read { IfOk result (λ logs. (n : Position) (ends : Ends) → slice_get all.items n ≡ Some ends → AllByRecursion (HasRead logs.items) ends.incoming.items) }
    {
        let PlanCells { plan, cells } = self;
        logs_of(alloc, &plan, cells, all)
    }
}
