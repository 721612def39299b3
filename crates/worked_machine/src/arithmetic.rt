ghost use Rattle.worked_machine.specs.Arithmetic.{WorkedShifts, WorkedParts, WorkedOrders, WorkedSigns, WorkedSums, WorkedLongs};

/// A law: the definitions give what was worked out by hand of words, at their edges. It does nothing. See
/// docs/INSTRUCTIONS.md.
pub fn worked_arithmetic()
    ensures shifts { WorkedShifts }
    ensures parts { WorkedParts }
    ensures orders { WorkedOrders }
    ensures signs { WorkedSigns }
    ensures sums { WorkedSums }
    ensures longs { WorkedLongs }
{}
