//! Turns that are taken by hand.
ghost use Rattle.std.specs.Prelude.{All};
ghost use Rattle.core_workers.specs.Worker.{IsOpen};

use core_workers::{Turn, Worker};
use xs_edge::OpenGate;

/// Whether the turns that the worker takes now, one after another, come to these.
pub fn takes(worker: &mut Worker<'_>, wanted: &[Turn]) -> bool
    requires open { All IsOpen worker.old.ends.outgoing.items }
    ensures open { All IsOpen worker.new.ends.outgoing.items }
{
    let mut agree = true;
    for want in wanted {
        let turn = worker.turn(&OpenGate);
        agree = agree && turn == *want;
    }
    agree
}
