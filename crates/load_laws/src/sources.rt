//! The sources of loads.
ghost use Rattle.std.specs.Prelude.{ℕ, ◌<◌, ◌^◌};
ghost use Rattle.load_laws.specs.Accepted.{IsAcceptedSource};

/// The source of every node of every load is accepted, whatever its two words are, and its data are these and the three that all sources
/// have. See docs/LOADS.md.
pub fn load_sources_are_accepted()
    ensures { (destination first : ℕ) → destination < 2 ^ 32 → first < 2 ^ 32 → IsAcceptedSource destination first }
{}
