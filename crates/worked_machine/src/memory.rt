ghost use Rattle.worked_machine.specs.Memory.{WorkedMemory};

/// A law: the definitions give what was worked out by hand for the rows on memory. It does nothing.
pub fn worked_memory()
    ensures { WorkedMemory }
{}
