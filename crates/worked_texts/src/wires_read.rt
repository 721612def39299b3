ghost use Rattle.worked_texts.specs.WiresRead.{WorkedWireRefusals, WorkedWires};

/// A law: the definitions give what was worked out by hand for system texts with wires. It does nothing. See docs/WIRES.md.
pub fn worked_wires_read()
    ensures refusals { WorkedWireRefusals }
    ensures systems { WorkedWires }
{}
