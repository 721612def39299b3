ghost use Rattle.worked_machine.specs.Waits.{WorkedWaits, WorkedThings, WorkedDivider, WorkedLevels};

/// A law: the definitions give what was worked out by hand of what waits hold, at which thing a thread waits, when the divider
/// is free for one, and the levels of driven pins. It does nothing.
pub fn worked_waits()
    ensures waits { WorkedWaits }
    ensures things { WorkedThings }
    ensures divider { WorkedDivider }
    ensures levels { WorkedLevels }
{}
