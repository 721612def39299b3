ghost use Rattle.worked_runs.specs.Wires.{WorkedWires, WiredPins, ToldLevels};

/// A law: the definitions give what was worked out by hand for the arcs of four wires and two links, for what wires bring to pins, and
/// for what they are told of levels. It does nothing.
pub fn worked_wires()
    ensures arcs { WorkedWires }
    ensures pins { WiredPins }
    ensures told { ToldLevels }
{}
