//! Loads as whole system texts.
ghost use Rattle.std.specs.Prelude.{ℕ, ◌<◌, ◌^◌};
ghost use Rattle.load_laws.specs.Accepted.{IsAccepted};

/// The load of every number is accepted as a system, which is the ring that it is meant to be. See docs/LOADS.md.
pub fn loads_are_accepted()
    ensures { (n : ℕ) → n < 2 ^ 32 → IsAccepted n }
{}
