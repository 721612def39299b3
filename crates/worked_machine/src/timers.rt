ghost use Rattle.worked_machine.specs.Timers.{WorkedTimers};

/// A law: the definitions give what was worked out by hand for the rows on timers and clock blocks. It does nothing.
pub fn worked_timers()
    ensures { WorkedTimers }
{}
