ghost use Rattle.worked_machine.specs.TimeRuns.{WorkedTimeRuns};

/// A law: the definitions give what was worked out by hand for programs with timers, events and interrupts. It does nothing.
pub fn worked_time_runs()
    ensures { WorkedTimeRuns }
{}
