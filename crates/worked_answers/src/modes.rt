ghost use Rattle.worked_answers.specs.Modes.{WorkedForms, WorkedWaits, WorkedRounds};

/// A law: the definitions give what was worked out by hand for the modes of a run, and for runs that go round by round. It does nothing.
pub fn worked_modes()
    ensures forms { WorkedForms }
    ensures waits { WorkedWaits }
    ensures rounds { WorkedRounds }
{}
