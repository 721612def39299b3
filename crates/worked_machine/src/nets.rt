ghost use Rattle.worked_machine.specs.Nets.{WorkedNets};

/// A law: the definitions give what was worked out by hand for networks: by which one a packet goes, and where it is lost; which one a
/// channel end keeps; and the rows that set and tell it. It does nothing.
pub fn worked_nets()
    ensures { WorkedNets }
{}
