//! `check_ranks`, what the ranks of a plan come to.
ghost use Rattle.std.specs.Prelude.{◌≡◌, length};
ghost use Rattle.rank_model.specs.Next.{link_count};
ghost use Rattle.rank_model.specs.Verdicts.{verdict_of};
ghost use Rattle.rank_model.specs.Checks.{checked};
ghost use Rattle.route_ranks.specs.Checks.{ChecksRanks};

use crate::line_checks::{first_fault, is_missing, ranks_by_link};
use crate::no_rank::no_rank;
use crate::no_way::no_way;
use crate::rank_error::RankError;
use crate::ranks::Ranks;
use rank_model::{RankKind, Verdict};
use sys_plan::Plan;

/// What the ranks of a plan come to: the verdict on all of them, or the first line that is refused, which is the line `system` where a directed
/// link has no rank. It takes no memory. See docs/ROUTES.md.
pub fn check_ranks(plan: &Plan, ranks: &Ranks) -> Result<Verdict, RankError>
    ensures exact { ChecksRanks (checked plan.now ranks.now) result }
{
    let lines = ranks.lines();
    if let Some(fault) = first_fault(plan, lines) {
        return Err(RankError::Fault {
            line: fault.line,
            kind: fault.kind,
        });
    }
    if is_missing(plan, lines) {
        return Err(RankError::Fault {
            line: ranks.system(),
            kind: RankKind::RankMissing,
        });
    }
    Ok(verdict_of(plan, ranks_by_link(plan, lines).as_slice()))
}

// The verdict on a plan with the ranks of all its directed links.
fn verdict_of(plan: &Plan, ranks: &[u16]) -> Verdict
    requires all { length ranks.now ≡ link_count plan.now }
    ensures value { result ≡ verdict_of plan.now ranks.now }
{
    if let Some(verdict) = no_way(plan) {
        return verdict;
    }
    no_rank(plan, ranks).unwrap_or(Verdict::Yes)
}
