ghost use Rattle.worked_machine.specs.SwitchSteps.{WorkedLinkEnds, WorkedSteps, WorkedLastChan};

/// A law: the definitions give what was worked out by hand when link ends may send, what arrives at them and which one is
/// taken, for single steps of the switch's inputs, and for the last channel end. It does nothing.
pub fn worked_switch_steps()
    ensures link_ends { WorkedLinkEnds }
    ensures inputs { WorkedSteps }
    ensures last_chan { WorkedLastChan }
{}
