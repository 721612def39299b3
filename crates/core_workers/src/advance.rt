//! A node that runs as far as it may, over quiet slots at once.
ghost use Rattle.std.specs.Prelude.{◌≡◌, ◌≤◌, IfOk};
ghost use Rattle.node_runners.specs.Runner.{Stops};
ghost use Rattle.core_workers.specs.Worker.{HasSteppedBusy};

use node_runners::{NodeRunner, Ran};
use std::alloc::AllocError;

/// Runs slots of a node until an end stops it or it is at the limit, and tells which. The error is want of memory.
pub(crate) fn run_all(runner: &mut NodeRunner) -> Result<Ran, AllocError>
    requires busy { HasSteppedBusy runner.old }
    ensures rest { runner.new ≡ record runner.old { clock = runner.new.clock; stepped = runner.new.stepped } }
    ensures on { runner.old.clock ≤ runner.new.clock }
    ensures stops { IfOk result (λ ran. Stops runner.new.horizon runner.new.clock ran) }
    ensures busy { HasSteppedBusy runner.new }
{
    runner.run_on()
}
