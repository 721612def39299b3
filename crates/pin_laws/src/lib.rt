//! What the pin events of a run tell of a node's pins: laws that everyone who looks at a waveform relies on.
//!
//! A port in direction output drives its pins with a value; else it drives nothing, and its pins show what they show from
//! outside. What each port drives is a part of the node's record. A waveform is drawn from events alone: `pin 4A 0x0000000a`
//! says that a port drives a value from now on, and `pin 4A float` that it has let go of its pins. These laws say that
//! nothing is lost on that way: of each port of each node, before every slot of every plan, what it drives is the value of
//! its last Drive so far, and nothing where it has none yet or where a Float came after it. So who reads the events of a
//! node in order, and keeps for each port the last one, knows what its ports drive, whatever the programs on the nodes do:
//! turn a port on or off, turn it from output to input, start a clock block, or pause there.
//!
//! Nothing is told twice either. A Drive comes only where its value was not driven just before, and a Float only where some
//! value was: no event of a port repeats the one before it, and each stands for an edge in a waveform.
//!
//! And each change stands in the slot in which it comes. What a port drives after a slot follows from what it drove before
//! that slot and from the events of that slot alone. So where it changes there is an event of that very slot, and where
//! a slot has no event of a port, the port drives after it what it drove before. A port may change twice in one slot, first
//! at the edge of its clock and then by an instruction: both are told, in this order.
//!
//! An example: port 4A is turned on, and `out` puts 0x5a with a transfer width of 4. At the falling edge of its clock 4A
//! drives 10, the low four bits, and the event is `pin 4A 0x0000000a`. If `out` puts 10 once more, 4A drives 10 again at a
//! later edge, and there is no event: nothing changed. Then `in` turns it round, it lets go of its pins, and the event is
//! `pin 4A float`.
//!
//! The laws speak of all events of a node. A trace keeps the first 262,144 of each node and counts the others, so it is a
//! whole waveform where it counts none. They hold for every plan, also for one whose link ends or nodes no text describes,
//! for positions past its nodes, at which there is nothing to drive and nothing is told, and whatever the pins show from
//! outside. See docs/PORTS.md and docs/OUTPUT.md.
#![tactic(auto)]

ghost use Rattle.pin_laws.specs.Pins.{PinsAreTold, PinEventsAreChanges, ChangesAreInTheirSlot};

use step_laws::slot_tells_pins;

/// For every plan and number of slots, each node and port: the port drives what the last of its pin events says, and nothing
/// where there was none or that is a Float; each of those events tells a change of what the port drives; and what a port
/// drives after a slot follows from what it drove before by the events of that slot. It does nothing. See docs/PORTS.md.
pub fn pins_are_told()
    ensures driven { PinsAreTold }
    ensures changes { PinEventsAreChanges }
    ensures in_their_slot { ChangesAreInTheirSlot }
{
    slot_tells_pins();
}
