//! `LinkCounts`, what is counted at the link ends of a node.
ghost use Rattle.std.specs.Prelude.{◌≡◌, ◌<◌};
ghost use Rattle.xs_base.specs.Numbers.{EndNumber};
ghost use Rattle.xs_base.specs.declared.numbers.TheConstants.{LINK_ENDS};
ghost use Rattle.profile_model.specs.Counts.{is_slot};
ghost use Rattle.run_counts.specs.Tallies.{AreZeros, HasRoom, CountsEnds};

use crate::counting::count_if;
use link_ends::EndState;
use xs_base::numbers::BUFFER_TOKENS;

/// What is counted at the link ends of a node, by number.
#[derive(Clone, Copy)]
pub struct LinkCounts {
    /// In how many slots it sent a token.
    pub tokens: [u64; 8],
    /// After how many of them it was without a credit.
    pub full: [u64; 8],
}

impl LinkCounts {
    /// Nothing.
    pub(crate) fn new() -> LinkCounts
        ensures tokens { AreZeros result.tokens }
        ensures full { AreZeros result.full }
    {
        LinkCounts {
            tokens: [0; 8],
            full: [0; 8],
        }
    }

    /// Counts a slot after which the link ends are so.
    pub(crate) fn count(&mut self, ends: &[EndState; 8], slot: u32)
        requires tokens { (e : EndNumber) → e < LINK_ENDS → HasRoom self.old.tokens e }
        requires full { (e : EndNumber) → e < LINK_ENDS → HasRoom self.old.full e }
        ensures counted { CountsEnds slot ends.now self.old self.new }
    {
        for e in 0..8 {
            count_if(&mut self.tokens, e, is_slot(slot, ends[e].last));
            count_if(&mut self.full, e, ends[e].window == BUFFER_TOKENS);
        }
    }
}

// Whether this is the slot.
fn is_slot(slot: u32, last: Option<u32>) -> bool
    ensures { result ≡ is_slot slot last }
{
    last == Some(slot)
}
