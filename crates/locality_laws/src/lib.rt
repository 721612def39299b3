//! Laws of locality: a node of the serial machine depends on the other nodes by what comes to it in each slot, and by nothing else.
//! So a node may run ahead of its neighbours, as far as what it has seen of its links goes. See docs/LOOKAHEAD.md.
#![tactic(auto)]

ghost use Rattle.locality_laws.specs.Locality.{StepNeedsComing, Locality, ArrivalsTell, ArrivalsTellBefore, OutgoingLeaves};
ghost use Rattle.locality_laws.specs.Horizon.{HistoriesGrow, HistoriesAreWhole, SlotsCarryFew, SeenArrives, ArrivesLater, LevelsGoOn, WiresShowLater, LevelsCome, SeenLevels};
ghost use Rattle.locality_laws.specs.Levels.{LinksCarryNoLevel, DrivenLevelsFit, WiresCarryLevels, ShownLevelsFit};

/// For every plan, node and number of slots: the node stepped alone, by what comes to it in each slot, has the record, the events and
/// the histories of its outgoing arcs that it has in the serial machine. One slot of it needs what comes in that slot alone. It does
/// nothing.
pub fn nodes_are_local()
    ensures step { StepNeedsComing }
    ensures local { Locality }
    ensures leaves { OutgoingLeaves }
{}

/// What comes to a node in a slot is told by whatever lists tell what arrives in that slot by the links that come to the node, and what
/// the wires show in it that come to its pins; and what comes in each slot before one by lists that tell what arrives before it. It
/// does nothing.
pub fn arrivals_tell_what_comes()
    ensures now { ArrivalsTell }
    ensures before { ArrivalsTellBefore }
{}

/// What was sent on an arc stays its history's front; and where its entries are known up to a slot, all is known that arrives
/// by it before that slot and its delay. Of a wire its levels are known so too, by the level that is left by what was sent before the
/// entries that are known. It does nothing.
pub fn links_tell_ahead()
    ensures grow { HistoriesGrow }
    ensures whole { HistoriesAreWhole }
    ensures few { SlotsCarryFew }
    ensures seen { SeenArrives }
    ensures later { ArrivesLater }
    ensures levels { LevelsGoOn }
    ensures shows { WiresShowLater }
    ensures come { LevelsCome }
    ensures seen_levels { SeenLevels }
{}

/// What comes to a link end is a token or a credit, and never a level. A wire carries levels alone, each of which fits the pins that it
/// joins, since what a port drives does; and so what the pins of a node show from outside fits them. It does nothing.
pub fn wires_carry_levels()
    ensures none { LinksCarryNoLevel }
    ensures driven { DrivenLevelsFit }
    ensures levels { WiresCarryLevels }
    ensures shown { ShownLevelsFit }
{}
