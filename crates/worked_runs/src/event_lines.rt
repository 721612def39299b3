ghost use Rattle.worked_runs.specs.EventLines.{WorkedLines};

/// A law: the definitions give what was worked out by hand for the lines of events. It does nothing.
pub fn worked_event_lines()
    ensures { WorkedLines }
{}
