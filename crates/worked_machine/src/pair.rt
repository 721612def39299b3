ghost use Rattle.worked_machine.specs.Pair.{WorkedPair, WorkedLost, WorkedFull, WorkedLate};

/// A law: the definitions give what was worked out by hand for two nodes and one link: a packet that arrives, one to a
/// channel end that is not in use, a program that never takes a token, and one that takes each late, once all buffers are
/// full. It does nothing.
pub fn worked_pair()
    ensures arrived { WorkedPair }
    ensures lost { WorkedLost }
    ensures full { WorkedFull }
    ensures late { WorkedLate }
{}
