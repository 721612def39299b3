//! Laws on what `profile` of `xs1_look` writes. See docs/LOOK.md.
#![tactic(auto)]

ghost use Rattle.profile_laws.specs.AddUp.{SlotsAddUp, EachIsCountedOnce};

/// In every slot a thread is shown by one of the characters that are told, so that its numbers add up to the slots. It does nothing.
pub fn slots_add_up()
    ensures { SlotsAddUp }
{}

/// Each slot in which a thread issues, pauses or waits is counted at one place. It does nothing.
pub fn each_is_counted_once()
    ensures { EachIsCountedOnce }
{}
