ghost use Rattle.worked_machine.specs.Turns.{WorkedTurns};

/// A law: the definitions give what was worked out by hand of who issues in each slot, for threads that are always able and
/// for five small programs. It does nothing.
pub fn worked_turns()
    ensures { WorkedTurns }
{}
