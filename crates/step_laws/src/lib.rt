//! Laws of a node's step: what every issue keeps, how soon an eligible thread issues, and what the events of a slot tell. See
//! docs/MACHINE.md.
#![tactic(auto)]

ghost use Rattle.step_laws.specs.EightSlots.{EligibleIssues, FirstHasAllLastIssues, SlotKeepsAllLastIssues};
ghost use Rattle.step_laws.specs.Driven.{FirstFitsPins, SlotFitsPins};
ghost use Rattle.step_laws.specs.Pins.{SlotTellsChanges, SlotTellsDriven};
ghost use Rattle.step_laws.specs.Shape.{FirstHasShape, SlotKeepsShape, SlotMakesFewEvents, SlotNamesWhatIsThere};
ghost use Rattle.step_laws.specs.StatusBits.{FirstIsKnown, IssueStaysKnown, SlotStaysKnown};

/// The status registers of every thread have the seven status bits and no others, whatever program runs: as a core
/// starts, after each issue, and after each slot of a node. It does nothing.
pub fn status_has_no_other_bit()
    ensures first { FirstIsKnown }
    ensures issue { IssueStaysKnown }
    ensures slot { SlotStaysKnown }
{}

/// A thread that is eligible in eight consecutive slots of a node issues in one of them, be it an instruction or an event
/// or interrupt that it takes: whatever code the threads run, whatever comes from outside, and whatever the other threads
/// do. This holds of a core with eight last issues; every
/// core starts with eight, and keeps eight in each slot. It does nothing. See docs/THREADS.md.
pub fn eligible_thread_issues()
    ensures law { EligibleIssues }
    ensures first { FirstHasAllLastIssues }
    ensures slot { SlotKeepsAllLastIssues }
{}

/// After a slot of a node each port drives exactly what the slot's events say, and each event of a port tells a change of
/// what it drives: whatever the node, its code and what comes to it. It does nothing. See docs/PORTS.md.
pub fn slot_tells_pins()
    ensures driven { SlotTellsDriven }
    ensures changes { SlotTellsChanges }
{}

/// A slot of a node makes at most 71 events, one for each of its 29 ports, one for each of the 40 inputs of its switch, and
/// two for its issue; and each port, channel end and thread that an event names is one that every core has. This holds of
/// a node that has 29 ports and 8 threads, and whose switch holds no other channel ends than those that are there; every
/// node starts so, and stays so in each slot. It does nothing. See docs/MACHINE.md.
pub fn slot_has_few_events()
    ensures first { FirstHasShape }
    ensures slot { SlotKeepsShape }
    ensures few { SlotMakesFewEvents }
    ensures within { SlotNamesWhatIsThere }
{}

/// What a port drives fits its pins: as a core starts it drives nothing, and each slot of a node leaves it so, whatever comes from outside.
/// Of a port's shift register each bit is 0 or 1. It does nothing. See docs/PORTS.md.
pub fn ports_drive_what_fits()
    ensures first { FirstFitsPins }
    ensures slot { SlotFitsPins }
{}
