ghost use Rattle.worked_machine.specs.Dividers.{WorkedDividers};

/// A law: the definitions give what was worked out by hand of the divider that threads share in edition 2: who waits for it, for how
/// long, and which rows do. It does nothing.
pub fn worked_dividers()
    ensures { WorkedDividers }
{}
