//! What a worker publishes of the arcs that leave its node.
ghost use Rattle.std.specs.Prelude.{◌≡◌, ◌<◌, Some, All, OnOk, [], length};
ghost use Rattle.std.specs.List.{AllByRecursion, AllZip};
ghost use Rattle.sys_plan.specs.Plan.{IsPlan, outgoing};
ghost use Rattle.plan_cells.specs.Ends.{IsOutgoing};
ghost use Rattle.core_workers.specs.Worker.{IsTold, IsOpen, Tells, StaysOutgoing, Told, Closes};
ghost use Rattle.core_workers.specs.Steps.{PublishesAt};

use link_logs::Cause;
use log_cells::Sent;
use node_runners::NodeRunner;
use plan_cells::{Ends, Outgoing, PlanCells};
use std::alloc::AllocError;
use std::sync::Wait;
use xs_base::Batch;

// Publishes up to the node's clock an arc that leaves it, unless its cell is in use by its other end. The error is want of memory, and
// publishes nothing. Where all is published it does nothing, so that no one is woken for nothing.
fn tell(cells: &PlanCells, writer: &mut Outgoing, runner: &mut NodeRunner) -> Result<(), AllocError>
    requires of_plan { runner.old.plan ≡ cells.now.plan }
    requires fit { IsOutgoing cells.now writer.old }
    requires route { outgoing runner.old.plan runner.old.node writer.old.end ≡ Some writer.old.link }
    requires end { writer.old.end < length runner.old.published }
    requires is_told { IsTold runner.old.published writer.old }
    requires open { IsOpen writer.old }
    ensures is_told { IsTold runner.new.published writer.new }
    ensures publishes { PublishesAt writer.old.end runner.old runner.new }
    ensures stays { StaysOutgoing writer.old writer.new }
    ensures told { OnOk result (Told runner.old.clock writer.old writer.new) }
{
    let clock = runner.clock();
    let from = writer.w.published();
    if from == clock {
        return Ok(());
    }
    let mut batch = runner.send(writer.end);
    let carries = !batch.entries().is_empty();
    let cell = cells.cell(writer.link);
    match cell.try_publish(&mut writer.w, clock, &mut batch) {
        Sent::Done => {
            keep(runner, writer.end, carries, batch);
            Ok(())
        }
        Sent::Busy => {
            runner.unsend(writer.end, batch, from);
            Ok(())
        }
        Sent::Memory => {
            runner.unsend(writer.end, batch, from);
            Err(AllocError)
        }
    }
}

// Keeps the buffer of a batch that was published. One that carried nothing had none, and would take the place of a better one.
fn keep(runner: &mut NodeRunner, end: u8, carried: bool, batch: Batch)
    requires empty { batch.entries ≡ [] }
    ensures same { runner.new ≡ runner.old }
{
    if carried {
        runner.keep(end, batch);
    }
}

/// Publishes up to the node's clock each link or wire that leaves it, but where its cell is in use by its other end. The error is want of memory.
pub(crate) fn tell_all(
    cells: &PlanCells,
    ends: &mut Ends,
    runner: &mut NodeRunner,
) -> Result<(), AllocError>
    requires plan { IsPlan cells.now.plan }
    requires of_plan { runner.old.plan ≡ cells.now.plan }
    requires tells { Tells cells.now runner.old ends.old.outgoing.items }
    requires open { All IsOpen ends.old.outgoing.items }
    ensures tells { Tells cells.now runner.new ends.new.outgoing.items }
    ensures rest { runner.new ≡ record runner.old { published = runner.new.published } }
    ensures incoming { ends.new.incoming ≡ ends.old.incoming }
    ensures stays { AllZip StaysOutgoing ends.old.outgoing.items ends.new.outgoing.items }
    ensures told { OnOk result (AllZip (Told runner.old.clock) ends.old.outgoing.items ends.new.outgoing.items) }
{
    for writer in ends.outgoing.iter_mut() {
        tell(cells, writer, runner)?;
    }
    Ok(())
}

// Closes the log of an arc that leaves the node, where it is open.
fn close<R: Wait>(rt: &R, cells: &PlanCells, writer: &mut Outgoing, cause: Cause)
    requires fit { IsOutgoing cells.now writer.old }
    ensures closes { Closes cause writer.old writer.new }
{
    if writer.w.cause().is_none() {
        let cell = cells.cell(writer.link);
        cell.end(rt, &mut writer.w, cause);
    }
}

/// Closes the logs of the links and wires that leave the node, where they are open.
pub(crate) fn close_all<R: Wait>(rt: &R, cells: &PlanCells, ends: &mut Ends, cause: Cause)
    requires fit { AllByRecursion (IsOutgoing cells.now) ends.old.outgoing.items }
    ensures closes { AllZip (Closes cause) ends.old.outgoing.items ends.new.outgoing.items }
    ensures incoming { ends.new.incoming ≡ ends.old.incoming }
{
    for writer in ends.outgoing.iter_mut() {
        close(rt, cells, writer, cause);
    }
}
