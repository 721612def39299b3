//! `Story`, what names a directed link or a wire of a run.
ghost use Rattle.std.specs.Prelude.{ℕ, ◌≡◌, ◌≤◌, List, length};
ghost use Rattle.xs_base.specs.declared.entry.Entry.{Entry};

/// One directed link or wire of one run: what it carries in each slot is a matter of the run and its number alone.
pub trait Story {
    /// What tells a run.
    type Run;

    /// The run, and the number of the directed link or wire.
    ghost run: { Self → Self.Run };

    ghost number: { Self → ℕ };

    /// The entries of the directed link or wire with a number in a slot of a run.
    ghost entries_at: { Self.Run → ℕ → ℕ → List Entry };

    /// The number of the directed link or wire.
    fn link(&self) -> u32
        ensures number { result ≡ number self.now };

    /// A token and a credit at most, or a level.
    ghost at_most_two: { (run : Self.Run) (number slot : ℕ) → length (entries_at run number slot) ≤ 2 };
}
