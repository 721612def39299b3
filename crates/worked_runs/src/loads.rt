ghost use Rattle.worked_runs.specs.Loads.{WorkedLoads, WorkedLines};

/// A law: the definitions give what was worked out by hand for the texts of loads, and for the lines that tell what they came
/// to. It does nothing.
pub fn worked_loads()
    ensures texts { WorkedLoads }
    ensures lines { WorkedLines }
{}
