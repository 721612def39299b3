//! `Told`, what a slot tells of a node's threads.
ghost use Rattle.std.specs.Prelude.{◌≡◌};
ghost use Rattle.core_step.specs.Told.{has_trap, is_trap};

use processor::NextIssue;
use xs_model::{Event, Happen};

/// What of a node's threads is told of a slot: who is able to issue, right before the issue, and what that is. See docs/MACHINE.md.
#[derive(Clone, Copy)]
pub struct Told {
    /// The threads that may issue in the slot but for the four slots of rest that lie between two issues of one thread: bit k for
    /// thread k, 0 to 7.
    pub able: u8,
    /// Who issues in the slot, and what it takes: None exactly where nobody issues.
    pub issue: Option<NextIssue>,
    /// Whether who issues traps.
    pub traps: bool,
}

// Whether a trap is among the events of a slot.
pub(crate) fn has_trap(events: &[Event]) -> bool
    ensures { result ≡ has_trap events.now }
{
    for e in events {
        if is_trap(e.what) {
            return true;
        }
    }
    false
}

// Whether a thread traps by what happens.
fn is_trap(what: Happen) -> bool
    ensures { result ≡ is_trap what }
{
    matches!(what, Happen::Trap { .. })
}
