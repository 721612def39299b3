ghost use Rattle.worked_answers.specs.Pins.{WorkedPins};

/// A law: the definitions give what was worked out by hand for systems with a pin script. It does nothing.
pub fn worked_pins()
    ensures { WorkedPins }
{}
