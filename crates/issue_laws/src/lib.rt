//! Laws on what `issues` of `xs1_look` writes. See docs/LOOK.md.
#![tactic(auto)]

ghost use Rattle.issue_laws.specs.Followed.{MemoryIsFollowed, RegistersAreFollowed};

/// What the lines say that was stored is all that becomes of the memory. It does nothing.
pub fn memory_is_followed()
    ensures { MemoryIsFollowed }
{}

/// Registers change by issues alone. It does nothing.
pub fn registers_are_followed()
    ensures { RegistersAreFollowed }
{}
