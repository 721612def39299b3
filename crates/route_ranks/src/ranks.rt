//! `Ranks`, the ranks that were read.
ghost use Rattle.std.specs.Prelude.{◌≡◌};
ghost use Rattle.route_ranks.specs.Reads.{ranks_with};

use rank_model::RankLine;
use std::marker::Model;

/// The ranks that stand before a system text, in the order of their lines. Contracts see the record `RanksRec` of
/// `Rattle.rank_model.specs.Lines`. See docs/ROUTES.md.
#[derive(Drop)]
pub struct Ranks {
    lines: Vec<RankLine>,
    // The number of the line `system`.
    system: u32,
    // How many bytes the lines up to that one have, with their ends.
    rest: usize,
}

impl Model for Ranks {
    ghost use Rattle.rank_model.specs.Lines.{RanksRec};

    ghost Value = { RanksRec };

    ghost view = { λ r. record { lines = r.lines.items; system = r.system; rest = r.rest } };
}

impl Ranks {
    // The ranks of these lines.
    pub(crate) fn of(lines: Vec<RankLine>, system: u32, rest: usize) -> Ranks
        ensures { result ≡ ranks_with lines.items system rest }
    {
        Ranks {
            lines,
            system,
            rest,
        }
    }

    /// How many bytes of the text stand before the system text.
    pub fn rest(&self) -> usize
        ensures value { result ≡ self.now.rest }
    {
        self.rest
    }

    // The ranks, in the order of their lines.
    pub(crate) fn lines(&self) -> &[RankLine]
        ensures { result.now ≡ self.now.lines }
    {
        &self.lines
    }

    // The number of the line `system`.
    pub(crate) fn system(&self) -> u32
        ensures { result ≡ self.now.system }
    {
        self.system
    }
}
