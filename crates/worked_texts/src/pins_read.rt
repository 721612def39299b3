ghost use Rattle.worked_texts.specs.PinsRead.{WorkedPlansWithPins, WorkedPinRefusals};

/// A law: the definitions give what was worked out by hand for system texts with a pin script. It does nothing.
pub fn worked_pins_read()
    ensures systems { WorkedPlansWithPins }
    ensures refusals { WorkedPinRefusals }
{}
