//! What is always true of a port, whatever edges its clock has and whatever rows act on it. See docs/PORTS.md.
#![tactic(auto)]

ghost use Rattle.port_laws.specs.Ports.{EdgesKeep, FirstHaveFacts, RowsKeep, SlotKeeps};

/// A port of 1 to 32 pins is off and as it was at first, or each of its transfers has a multiple of so many bits as it has
/// pins, from one beat to the transfer width, and a value that fits them; its shift register has whole beats of bits, each
/// 0 or 1, and no more than a transfer; its condition's value and what it drives fit its pins; its counter, stamps and times
/// are below 65,536; and in direction input it drives nothing. Ports that are off or were just turned on are so, each edge of
/// a port's clock and each row that acts on it leaves it so, and the edges of a slot leave all ports so. It does nothing. See
/// docs/PORTS.md.
pub fn ports_keep_their_facts()
    ensures first { FirstHaveFacts }
    ensures edge { EdgesKeep }
    ensures rows { RowsKeep }
    ensures slot { SlotKeeps }
{}
