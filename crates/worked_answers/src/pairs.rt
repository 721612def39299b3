ghost use Rattle.worked_answers.specs.Pairs.{WorkedPairs};

/// A law: the definitions give what was worked out by hand for runs of two and of three nodes. It does nothing.
pub fn worked_pairs()
    ensures { WorkedPairs }
{}
