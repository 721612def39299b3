//! What a core asks of its switch.
ghost use Rattle.std.specs.Prelude.{◌≡◌, ◌<◌, ℕ, Bool};
ghost use Rattle.xs_base.specs.declared.numbers.TheConstants.{CHAN_ENDS};

/// Who knows which channel ends are at work: a switch.
pub trait Holders {
    /// Whether a channel end is at work.
    ghost busy: { Self → ℕ → Bool };

    /// Whether channel end `c`, 0 to 31, is at work: its own input is not idle, or some input holds it. See
    /// docs/LINKS.md.
    fn is_busy(&self, c: u8) -> bool
        requires within { c < CHAN_ENDS }
        ensures value { result ≡ busy self.now c };
}
