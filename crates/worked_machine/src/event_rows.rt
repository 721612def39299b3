ghost use Rattle.worked_machine.specs.EventRows.{WorkedEventRows};

/// A law: the definitions give what was worked out by hand for the rows with which a thread waits for events and ends what it
/// enabled, and of its status. It does nothing.
pub fn worked_event_rows()
    ensures { WorkedEventRows }
{}
