ghost use Rattle.worked_machine.specs.Entered.{WorkedEntered};

/// A law: the definitions give what was worked out by hand of what a slot does with an event or an interrupt. It does
/// nothing.
pub fn worked_entered()
    ensures { WorkedEntered }
{}
