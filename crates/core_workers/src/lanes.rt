//! `Lanes`, the cells of a plan's arcs.
ghost use Rattle.std.specs.Prelude.{◌≡◌, Some, IfOk, length, slice_get};
ghost use Rattle.xs_base.specs.Numbers.{Position};
ghost use Rattle.sys_plan.specs.Plan.{arc_count};
ghost use Rattle.plan_cells.specs.declared.ends.Ends.{Ends};
ghost use Rattle.plan_cells.specs.Ends.{AreNewEnds};
ghost use Rattle.core_workers.specs.Worker.{WorkerRec};
ghost use Rattle.core_workers.specs.Run.{IsLeftAt};

use crate::finished::Finished;
use crate::gather::gather;
use crate::way::Way;
use crate::worker::Part;
use plan_cells::{Ends, PlanCells};
use std::alloc::{AllocError, Global};
use std::marker::Model;
use std::sync::Arc;
use sys_plan::Plan;

/// The cells of a plan's arcs, which the workers of its nodes share. Contracts see a `CellsRec` of
/// `Rattle.plan_cells.specs.Ends`. See docs/LOOKAHEAD.md.
#[derive(Drop)]
pub struct Lanes {
    pub(crate) cells: PlanCells,
}

impl Model for Lanes {
    ghost use Rattle.plan_cells.specs.Ends.{CellsRec};

    ghost Value = { CellsRec };

    ghost use Rattle.sys_plan.specs.Plan.{IsPlan};

    ghost view = { λ l. l.cells };

    ghost invariant = { λ l. IsPlan l.cells.plan };
}

impl Lanes {
    /// A new cell for each arc of a plan, and the ends of these cells that each node holds, by position. The error is want
    /// of memory.
    pub fn new(alloc: Global, plan: &Arc<Plan>) -> Result<(Lanes, Vec<Ends>), AllocError>
        ensures plan { IfOk result (λ made. made.0.plan ≡ plan.now.value) }
        ensures links { IfOk result (λ made. length made.0.tables ≡ arc_count plan.now.value) }
        ensures nodes { IfOk result (λ made. length made.1.items ≡ length plan.now.value.nodes) }
        ensures ends { IfOk result (λ made. (n : Position) (ends : Ends) → slice_get made.1.items n ≡ Some ends → AreNewEnds made.0 n ends) }
    {
        plan.keeps();
        let (cells, ends) = PlanCells::new(alloc, plan)?;
        Ok((Lanes { cells }, ends))
    }

    /// The run of a system of which all nodes have run so many slots, `limit`, each on a worker of its own: `parts` are what is left of
    /// these workers, by position. The error is want of memory, and leaves nothing.
    pub fn finish(self, alloc: Global, parts: Vec<Part>, limit: u32) -> Result<Finished, AllocError>
        requires nodes { length parts.items ≡ length self.plan.nodes }
        requires at_limit { (n : Position) (part : WorkerRec) → slice_get parts.items n ≡ Some part → IsLeftAt self limit n part }
        ensures finished { IfOk result (λ f. f ≡ record { plan = self.plan; limit = limit; way = Way.Workers; rounds = 0 }) }
    {
        let run = gather(alloc, self.cells, parts, limit)?;
        Ok(Finished::of_workers(run))
    }
}
