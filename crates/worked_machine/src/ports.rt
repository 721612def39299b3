ghost use Rattle.worked_machine.specs.Ports.{WorkedPorts};

/// A law: the definitions give what was worked out by hand for ports, edge by edge, and for two programs with ports. It does
/// nothing.
pub fn worked_ports()
    ensures { WorkedPorts }
{}
