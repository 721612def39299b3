ghost use Rattle.worked_runs.specs.Schedules.{PairNumbers, RingNumbers};

/// A law: the definitions give what was worked out by hand for the numbers of schedules of two nodes, and of three in a ring.
/// It does nothing.
pub fn worked_schedules()
    ensures pair { PairNumbers }
    ensures ring { RingNumbers }
{}
