//! `Rest`, the slots in which a core is known to be quiet.
ghost use Rattle.std.specs.Prelude.{◌≡◌, ◌<◌, true};

/// The slots from one on and before another, in which a core is known to be quiet where nothing arrives. It stands before the first
/// of them. See docs/QUIET_SLOTS.md.
#[derive(Clone, Copy)]
pub struct Rest {
    pub(crate) from: u32,
    pub(crate) until: u32,
}

impl Rest {
    /// No slot.
    pub(crate) fn none() -> Rest
        ensures { result ≡ record { from = 0; until = 0 } }
    {
        Rest { from: 0, until: 0 }
    }

    /// Whether a slot is the first of them.
    #[inline]
    pub(crate) fn begins(&self, slot: u32) -> bool
        ensures { result ≡ true → (self.now.from ≡ slot) × (slot < self.now.until) }
    {
        self.from == slot && slot < self.until
    }

    /// Those of them from slot `to` on, where slot `from` is the first of them, and else none.
    #[inline]
    pub(crate) fn after(&self, from: u32, to: u32) -> Rest
        ensures { result.from < result.until → (self.now.from ≡ from) × ((result.from ≡ to) × (result.until ≡ self.now.until)) }
    {
        if self.from == from {
            Rest {
                from: to,
                until: self.until,
            }
        } else {
            Rest::none()
        }
    }
}
