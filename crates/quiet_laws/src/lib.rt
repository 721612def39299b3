//! Laws of quiet slots: what they leave of a node, and which slot is the first that is not quiet. See docs/QUIET_SLOTS.md.
#![tactic(auto)]

ghost use Rattle.quiet_laws.specs.Quiet.{QuietSlotOnlyCounts, QuietSlotsOnlyCount, StillNodeStirsFirst, OtherNodeStirsNow};

use quiet_model::first_slots;

/// Where nothing arrives at a node and it does not stir, a slot changes nothing but the counters of its ports and what is kept of
/// the levels of its pins, and gives nothing; nor do many such slots. It does nothing.
pub fn quiet_slots_only_count()
    ensures slot { QuietSlotOnlyCounts }
    ensures slots { QuietSlotsOnlyCount }
{}

/// The first slot in which a node stirs at which nothing arrives is known from the node as it is. It does nothing.
pub fn first_stirring_slot()
    ensures still { StillNodeStirsFirst }
    ensures other { OtherNodeStirsNow }
{
    first_slots();
}
