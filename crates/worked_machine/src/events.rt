ghost use Rattle.worked_machine.specs.Events.{WorkedEvents};

/// A law: the definitions give what was worked out by hand for the rows on events and interrupts. It does nothing.
pub fn worked_events()
    ensures { WorkedEvents }
{}
