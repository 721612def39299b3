ghost use Rattle.worked_machine.specs.Choices.{WorkedChoices};

/// A law: the definitions give what was worked out by hand of which event or interrupt a thread takes. It does nothing.
pub fn worked_choices()
    ensures { WorkedChoices }
{}
