//! The lines of ranks: the first that is refused, and the ranks that they give to the directed links.
ghost use Rattle.std.specs.Prelude.{◌≡◌, ◌<◌, ◌==◌, ◌&&◌, find, length, []};
ghost use Rattle.rank_model.specs.Verdicts.{number_at};
ghost use Rattle.rank_model.specs.Checks.{names_none, is_given, fault_of, lines_checked, ranks_by_link, is_missing, rank_or_0, Checked};
ghost use Rattle.route_ranks.specs.Checks.{or_fault, gives};

use arrayvec::ArrayVec;
use rank_model::{RankKind, RankLine};
use sys_plan::Plan;

/// A line that is refused, and why.
#[derive(Clone, Copy)]
pub(crate) struct LineFault {
    pub(crate) line: u32,
    pub(crate) kind: RankKind,
}

/// The first line that is refused by the lines before it. Each line before that gives a rank of its own to a directed link, so at most 97
/// are looked at.
pub(crate) fn first_fault(plan: &Plan, lines: &[RankLine]) -> Option<LineFault>
    ensures value { (rest : Checked) → lines_checked plan.now [] lines.now rest ≡ or_fault result rest }
{
    for index in 0..lines.len() {
        let rank = lines[index];
        if let Some(kind) = fault_of(plan, &lines[..index], rank) {
            return Some(LineFault {
                line: rank.line,
                kind,
            });
        }
    }
    None
}

// Why a line is refused by the lines before it.
fn fault_of(plan: &Plan, before: &[RankLine], rank: RankLine) -> Option<RankKind>
    ensures value { result ≡ fault_of plan.now before.now rank }
{
    if names_none(plan, rank) {
        Some(RankKind::NoSuchLinkEnd)
    } else if is_given(before, rank) {
        Some(RankKind::GivenTwice)
    } else {
        None
    }
}

// Whether a line names a link end that no link has.
fn names_none(plan: &Plan, rank: RankLine) -> bool
    ensures value { result ≡ names_none plan.now rank }
{
    for link in plan.links() {
        if gives(plan, link.a, link.a_end, rank) || gives(plan, link.b, link.b_end, rank) {
            return false;
        }
    }
    true
}

// Whether a line gives the rank of the directed link that leaves a link end of the node at a position.
fn gives(plan: &Plan, node: u8, end: u8, rank: RankLine) -> bool
    requires there { node < length plan.now.nodes }
    ensures value { result ≡ gives plan.now node end rank }
{
    plan.nodes()[node as usize].number == rank.node && end == rank.end
}

// Whether a line names a link end that one of these lines names.
fn is_given(before: &[RankLine], rank: RankLine) -> bool
    ensures value { result ≡ is_given before.now rank }
{
    for other in before {
        if other.node == rank.node && other.end == rank.end {
            return true;
        }
    }
    false
}

/// Whether a directed link has no rank.
pub(crate) fn is_missing(plan: &Plan, lines: &[RankLine]) -> bool
    ensures value { result ≡ is_missing plan.now lines.now }
{
    for link in plan.links() {
        if given(plan, lines, link.a, link.a_end).is_none()
            || given(plan, lines, link.b, link.b_end).is_none()
        {
            return true;
        }
    }
    false
}

// The first line that gives the rank of the directed link that leaves a link end of the node at a position.
fn given(plan: &Plan, lines: &[RankLine], node: u8, end: u8) -> Option<RankLine>
    requires there { node < length plan.now.nodes }
    ensures value { result ≡ find (gives plan.now node end) lines.now }
{
    for rank in lines {
        if gives(plan, node, end, *rank) {
            return Some(*rank);
        }
    }
    None
}

/// The ranks of all directed links by number, 0 where none is given.
pub(crate) fn ranks_by_link(plan: &Plan, lines: &[RankLine]) -> ArrayVec<u16, 96>
    ensures value { result.items ≡ ranks_by_link plan.now lines.now }
{
    let mut ranks = ArrayVec::new();
    for link in plan.links() {
        ranks.push(rank_of(plan, lines, link.a, link.a_end));
        ranks.push(rank_of(plan, lines, link.b, link.b_end));
    }
    ranks
}

// The rank of the directed link that leaves a link end of the node at a position, 0 where none is given.
fn rank_of(plan: &Plan, lines: &[RankLine], node: u8, end: u8) -> u16
    requires there { node < length plan.now.nodes }
    ensures value { result ≡ rank_or_0 (find (gives plan.now node end) lines.now) }
{
    match given(plan, lines, node, end) {
        Some(rank) => rank.rank,
        None => 0,
    }
}
