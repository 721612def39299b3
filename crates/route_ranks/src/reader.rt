//! Reading the ranks before a system text.
ghost use Rattle.std.specs.Prelude.{ℕ, ◌≡◌, ◌≤◌, ◌<◌, ◌^◌, length, IfOk};
ghost use Rattle.rank_model.specs.Lines.{RanksRec, Ranks as RanksOf, BadLine, ranks_of};
ghost use Rattle.route_ranks.specs.Reads.{GivesRanks, ReadsRanks, RefusesLine};

use crate::rank_error::fault;
use crate::rank_words::says;
use crate::{RankError, Ranks};
use rank_model::{RankKind, RankSays};
use std::alloc::Global;
use xs_text::Lines;

/// The ranks that stand before the system text in a text of fewer than 2^32 bytes. A fault comes exactly where a line before the
/// line `system` is no line of ranks, at the first such line, or where there is no line `system`, at the line after the last; want
/// of memory may come in place of either. What stands after the line `system` is not read. See docs/ROUTES.md.
#[tactic(auto, unfolding(rank_model::specs::Lines::head_from))]
pub fn read_ranks(alloc: Global, text: &[u8]) -> Result<Ranks, RankError>
    requires { length text.now < 2 ^ 32 }

    ensures exact { ReadsRanks (ranks_of text.now) result }
    ensures taken { (ranks : RanksRec) → ranks_of text.now ≡ RanksOf ranks → GivesRanks ranks result }
    ensures refused { (line : ℕ) → ranks_of text.now ≡ BadLine line → RefusesLine line result }
    ensures within { IfOk result (λ ranks. ranks.rest ≤ length text.now) }
{
    let mut given = Vec::new(alloc);
    let mut lines = Lines::new(text);
    let mut last: u32 = 0;
    while let Some(line) = lines.next_line() {
        last = line.number;
        match says(last, &text[line.from..line.to]) {
            RankSays::Blank => {}
            RankSays::Rank(rank) => given.push(rank)?,
            RankSays::System => return Ok(Ranks::of(given, last, text.len() - lines.rest().len())),
            RankSays::NoForm => return Err(fault(last, RankKind::BadLine)),
        }
    }
    match last.checked_add(1) {
        Some(next) => Err(fault(next, RankKind::BadLine)),
        // After 2^32 - 1 lines the next one has no number.
        None => Err(RankError::Memory),
    }
}
