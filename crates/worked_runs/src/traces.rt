ghost use Rattle.worked_runs.specs.Traces.{WorkedEventOrder, WorkedTraces};

/// A law: the definitions give what was worked out by hand for the order of events, and for traces. It does nothing.
pub fn worked_traces()
    ensures order { WorkedEventOrder }
    ensures traces { WorkedTraces }
{}
