//! What a worker reads of the arcs that come to its node.
ghost use Rattle.std.specs.Prelude.{◌≡◌, Some, None, OnOk};
ghost use Rattle.std.specs.List.{AllZip};
ghost use Rattle.sys_plan.specs.Plan.{IsPlan, incoming};
ghost use Rattle.plan_cells.specs.Ends.{IsIncoming};
ghost use Rattle.core_workers.specs.Worker.{IsHeard, Listens, StaysIncoming, Tried};
ghost use Rattle.core_workers.specs.Steps.{HearsAt};

use link_logs::Got;
use log_cells::TryGot;
use node_runners::NodeRunner;
use plan_cells::{Ends, Hand, Incoming, PlanCells};
use std::alloc::AllocError;

// Hands to the node what is in hand. The error is want of memory: it is in hand then.
fn hand_over(reader: &mut Incoming, runner: &mut NodeRunner) -> Result<(), AllocError>
    requires route { incoming runner.old.plan runner.old.node reader.old.end ≡ Some reader.old.link }
    requires heard { IsHeard runner.old.plan runner.old.horizon reader.old }
    ensures heard { IsHeard runner.old.plan runner.new.horizon reader.new }
    ensures hears { HearsAt reader.old.end runner.old runner.new }
    ensures rest { reader.new ≡ record reader.old { hand = reader.new.hand } }
    ensures ok { OnOk result (reader.new.hand ≡ None) }
{
    let Some(hand) = reader.hand.take() else {
        return Ok(());
    };
    let Hand { batch, to } = hand;
    let carries = !batch.entries().is_empty();
    match runner.take(reader.end, batch, to) {
        Ok(()) => {
            give_back(reader, runner, carries);
            Ok(())
        }
        Err(batch) => {
            reader.hand = Some(Hand { batch, to });
            Err(AllocError)
        }
    }
}

// Gives the buffer of a batch that the node took to the end that reads. One that carried nothing had none, and would take the place of a
// better one.
fn give_back(reader: &mut Incoming, runner: &mut NodeRunner, carried: bool)
    ensures reader { reader.new ≡ reader.old }
    ensures runner { runner.new ≡ runner.old }
{
    if carried {
        let batch = runner.spare(reader.end);
        reader.r.give_back(batch);
    }
}

// Looks once at the log of an arc that comes to the node, unless its cell is in use, and hands to the node all that was read of it. The error
// is want of memory.
fn hear(cells: &PlanCells, reader: &mut Incoming, runner: &mut NodeRunner) -> Result<(), AllocError>
    requires of_plan { runner.old.plan ≡ cells.now.plan }
    requires fit { IsIncoming cells.now reader.old }
    requires route { incoming runner.old.plan runner.old.node reader.old.end ≡ Some reader.old.link }
    requires heard { IsHeard runner.old.plan runner.old.horizon reader.old }
    ensures heard { IsHeard runner.old.plan runner.new.horizon reader.new }
    ensures hears { HearsAt reader.old.end runner.old runner.new }
    ensures stays { StaysIncoming reader.old reader.new }
    ensures tried { OnOk result (Tried reader.old reader.new) }
{
    hand_over(reader, runner)?;
    let cell = cells.cell(reader.link);
    match cell.try_take(&mut reader.r) {
        TryGot::Busy => {
            reader.busy = true;
            Ok(())
        }
        TryGot::Got(got) => {
            reader.busy = false;
            match got {
                Got::Entries { to, batch, .. } => {
                    let hand = Hand { batch, to };
                    reader.hand = Some(hand);
                    hand_over(reader, runner)
                }
                Got::Nothing { .. } | Got::Closed => Ok(()),
            }
        }
    }
}

/// Looks once at the log of each link or wire that comes to the node, but where its cell is in use, and hands to the node all that was read
/// of it. The error is want of memory.
pub(crate) fn hear_all(
    cells: &PlanCells,
    ends: &mut Ends,
    runner: &mut NodeRunner,
) -> Result<(), AllocError>
    requires plan { IsPlan cells.now.plan }
    requires of_plan { runner.old.plan ≡ cells.now.plan }
    requires listens { Listens cells.now runner.old ends.old.incoming.items }
    ensures listens { Listens cells.now runner.new ends.new.incoming.items }
    ensures rest { runner.new ≡ record runner.old { horizon = record runner.old.horizon { ends = runner.new.horizon.ends } } }
    ensures outgoing { ends.new.outgoing ≡ ends.old.outgoing }
    ensures stays { AllZip StaysIncoming ends.old.incoming.items ends.new.incoming.items }
    ensures tried { OnOk result (AllZip Tried ends.old.incoming.items ends.new.incoming.items) }
{
    for reader in ends.incoming.iter_mut() {
        hear(cells, reader, runner)?;
    }
    Ok(())
}
