ghost use Rattle.worked_runs.specs.Plays.{PairPlayed, PairTexts};

/// A law: the definitions give what was worked out by hand for plays of two nodes, step by step and in text. It does nothing.
pub fn worked_plays()
    ensures steps { PairPlayed }
    ensures texts { PairTexts }
{}
