ghost use Rattle.worked_answers.specs.Edges.{WorkedFrames, WorkedSources, WorkedRuns};

/// A law: the definitions give what was worked out by hand at the edges of frames, of sources and of runs. It does nothing.
pub fn worked_edges()
    ensures frames { WorkedFrames }
    ensures sources { WorkedSources }
    ensures runs { WorkedRuns }
{}
