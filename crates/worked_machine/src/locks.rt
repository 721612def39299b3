ghost use Rattle.worked_machine.specs.Locks.{WorkedLocks};

/// A law: the definitions give what was worked out by hand for the rows on locks, and for `freer`. It does nothing.
pub fn worked_locks()
    ensures { WorkedLocks }
{}
