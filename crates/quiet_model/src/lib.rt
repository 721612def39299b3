//! Which slots of a node are quiet: what it is for a node to be still, and to stir in a slot. See docs/QUIET_SLOTS.md.
#![tactic(auto)]

ghost use Rattle.quiet_model.specs.Slots.{FirstAlike, FirstOfEither};

/// The first slot at which something holds: by parts, and by what holds in the slots before it alone. It does nothing.
pub fn first_slots()
    ensures either { FirstOfEither }
    ensures alike { FirstAlike }
{}
