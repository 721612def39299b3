//! How all nodes work at once.
ghost use Rattle.std.specs.Prelude.{◌≡◌, ◌<◌, ℕ, false, All, OnOk, length, slice_index_or};
ghost use Rattle.node_rounds.specs.Seats.{MayTake, HasWorked, IsNotShort};
ghost use Rattle.node_rounds.specs.Rounds.{IsBusySeat, HaveWorked};

use crate::seat::Seat;
use std::alloc::AllocError;
use std::thread;
use std::thread::Threads;
use xs_edge::Gate;

/// All nodes work at once, each in a thread of its own where one can be made, and else one after the other. It waits for nobody but them. The
/// error is want of memory.
pub(crate) fn work_all<R: Threads + Sync, G: Gate>(
    rt: &R,
    seats: &mut [Seat],
    gate: &G,
) -> Result<(), AllocError>
    requires ready { All MayTake seats.old }
    requires busy { All IsBusySeat seats.old }
    ensures worked { OnOk result (HaveWorked seats.old seats.new) }
{
    let threads = seats.len().max(1);
    thread::for_each_mut(
        rt,
        seats,
        threads,
        &|_, seat: &mut Seat|
            requires { MayTake seat.now × IsBusySeat seat.now }
            ensures { seat.exit.now.short ≡ false → HasWorked seat.entry.now seat.exit.now }
        { seat.work(gate) },
    );
    none_is_short(seats)
}

// The error is that one of the nodes was short of memory.
fn none_is_short(seats: &[Seat]) -> Result<(), AllocError>
    ensures none { OnOk result (All IsNotShort seats.now) }
{
    for seat in seats {
        if seat.short {
            return Err(AllocError);
        }
    }
    Ok(())
}
