ghost use Rattle.worked_runs.specs.Rounds.{LoneRounds, PairRounds, StepRounds, RingRounds, TwoWays};

/// A law: the definitions give what was worked out by hand for the rounds of nodes without links, of two nodes and a link, of three in
/// a ring, and where two links lead between the same nodes; and a schedule by which both of two nodes run, publish and take goes by
/// rounds. It does nothing.
pub fn worked_rounds()
    ensures lone { LoneRounds }
    ensures pair { PairRounds }
    ensures in_step { StepRounds }
    ensures ring { RingRounds }
    ensures two_ways { TwoWays }
{}
