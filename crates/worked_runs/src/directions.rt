ghost use Rattle.worked_runs.specs.Directions.{WorkedDirections};

/// A law: the definitions give what was worked out by hand for the directed links of one link and of two. It does nothing.
pub fn worked_directions()
    ensures { WorkedDirections }
{}
