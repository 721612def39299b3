ghost use Rattle.worked_machine.specs.Three.{WorkedThree};

/// A law: the definitions give what was worked out by hand for three nodes in a line: one passes a packet on, while its own
/// waits. It does nothing.
pub fn worked_three()
    ensures { WorkedThree }
{}
