//! The busy slots of the nodes of a system, and what lies between them. See docs/QUIET_SLOTS.md.
#![tactic(auto)]

ghost use Rattle.busy_slots.specs.Serial.{NodesAreWhole, IdleWhereNotBusy, QuietSlotsAreNotCounted, FirstBusySlot};
ghost use Rattle.busy_slots.specs.Arrivals.{NothingByAnyEnd, SomethingByOneEnd, WaitingStays, FirstBusyByBoth, NoneIsCountedAtStart, BusySlotIsCounted};

use locality_laws::{links_tell_ahead, nodes_are_local};
use quiet_laws::quiet_slots_only_count;
use quiet_model::first_slots;
use step_laws::slot_has_few_events;

/// Each node of the serial machine has before every slot all that a node has. It does nothing.
pub fn nodes_are_whole()
    ensures whole { NodesAreWhole }
{
    slot_has_few_events();
}

/// Between its busy slots a node of the serial machine is one at which nothing arrives; nothing happens, it sends nothing, and none
/// of these slots is counted. It does nothing.
pub fn idle_where_not_busy()
    ensures idle { IdleWhereNotBusy }
    ensures count { QuietSlotsAreNotCounted }
{
    nodes_are_local();
    links_tell_ahead();
    quiet_slots_only_count();
    slot_has_few_events();
}

/// The first busy slot of a node, up to which nothing arrives, is the first in which it stirs by itself. It does nothing.
pub fn first_busy_slot()
    ensures first { FirstBusySlot }
{
    nodes_are_local();
    first_slots();
}

/// Something arrives at a node in a slot exactly where something does by one of its link ends; and what was seen of a link and has not
/// arrived stays the same over slots in which nothing arrives. It does nothing.
pub fn arrivals_by_link_ends()
    ensures nothing { NothingByAnyEnd }
    ensures something { SomethingByOneEnd }
    ensures waiting { WaitingStays }
{
    links_tell_ahead();
}

/// The first busy slot of a node is found by two searches: one for the first slot in which something arrives, and before it one for the
/// first in which the node stirs by itself. It does nothing.
pub fn first_busy_by_both()
    ensures first { FirstBusyByBoth }
{
    first_busy_slot();
}

/// How busy slots are counted: from 0 on, each once. It does nothing.
pub fn busy_slots_are_counted()
    ensures start { NoneIsCountedAtStart }
    ensures one { BusySlotIsCounted }
{}
