ghost use Rattle.worked_machine.specs.Flow.{WorkedFlow};

/// A law: the definitions give what was worked out by hand for the rows on the flow of control. It does nothing.
pub fn worked_flow()
    ensures { WorkedFlow }
{}
