ghost use Rattle.worked_machine.specs.Modes.{WorkedModes};

/// A law: the definitions give what was worked out by hand for pairs of a kind and a mode that are none. It does nothing.
pub fn worked_modes()
    ensures { WorkedModes }
{}
