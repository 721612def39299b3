ghost use Rattle.worked_machine.specs.Slots.{WorkedIssues, WorkedTraps, WorkedEnd};

/// A law: the definitions give what was worked out by hand for first slots of small code: who issues, what traps leave, and
/// how a slot ends. It does nothing.
pub fn worked_slots()
    ensures issues { WorkedIssues }
    ensures traps { WorkedTraps }
    ensures end { WorkedEnd }
{}
