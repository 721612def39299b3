//! Whether ranks rise along the way.
ghost use Rattle.std.specs.Prelude.{◌≡◌, ◌<◌, length};
ghost use Rattle.rank_model.specs.Next.{link_count};
ghost use Rattle.rank_model.specs.Verdicts.{goes_on, first_dest, no_rank_between, no_rank_after, no_rank};
ghost use Rattle.route_ranks.specs.Nearest.{nearest, or_lesser};

use crate::ways::{is_next, link_count, link_route};
use rank_model::Verdict;
use sys_plan::Plan;

/// The first directed link from which a packet may go on to another whose rank is not above.
pub(crate) fn no_rank(plan: &Plan, ranks: &[u16]) -> Option<Verdict>
    requires all { length ranks.now ≡ link_count plan.now }
    ensures value { result ≡ no_rank plan.now ranks.now }
{
    for first in 0..link_count(plan) {
        let found = no_rank_after(plan, ranks, first);
        if found.is_some() {
            return found;
        }
    }
    None
}

// The first directed link to which a packet may go on from one, and whose rank is not above.
fn no_rank_after(plan: &Plan, ranks: &[u16], first: u32) -> Option<Verdict>
    requires all { length ranks.now ≡ link_count plan.now }
    requires first { first < link_count plan.now }
    ensures value { result ≡ no_rank_after plan.now ranks.now first }
{
    for second in 0..link_count(plan) {
        let found = no_rank_between(plan, ranks, first, second);
        if found.is_some() {
            return found;
        }
    }
    None
}

// Whether a packet may go on from a directed link to another whose rank is not above.
fn no_rank_between(plan: &Plan, ranks: &[u16], first: u32, second: u32) -> Option<Verdict>
    requires all { length ranks.now ≡ link_count plan.now }
    requires first { first < link_count plan.now }
    requires second { second < link_count plan.now }
    ensures value { result ≡ no_rank_between plan.now ranks.now first second }
{
    if ranks[second as usize] > ranks[first as usize] {
        return None;
    }
    match first_dest(plan, first, second) {
        None => None,
        Some(dest) => Some(Verdict::NoRank {
            first,
            second,
            dest,
        }),
    }
}

// The first of all ids for which a packet may go on from a directed link to another.
fn first_dest(plan: &Plan, first: u32, second: u32) -> Option<u16>
    requires first { first < link_count plan.now }
    requires second { second < link_count plan.now }
    ensures value { result ≡ first_dest plan.now first second }
{
    let route = link_route(plan, first);
    if route.to != link_route(plan, second).from {
        return None;
    }
    let from = plan.nodes()[route.from as usize].id;
    let to = plan.nodes()[route.to as usize].id;
    let mut found = None;
    for bit in 0..16u8 {
        found = or_lesser(plan, first, second, found, nearest(from, bit));
        found = or_lesser(plan, first, second, found, nearest(to, bit));
    }
    found
}

// The least id that first differs from an id at a bit: what nodes say of an id depends on where it first differs from theirs, and the
// bits below that may be 0 in the first for which a packet may go on.
fn nearest(id: u16, bit: u8) -> u16
    requires within { bit < 16 }
    ensures value { result ≡ nearest id bit }
{
    ((id >> bit) ^ 1) << bit
}

// The lesser of the id that is found and a further one, if a packet for that may go on.
fn or_lesser(plan: &Plan, first: u32, second: u32, found: Option<u16>, dest: u16) -> Option<u16>
    requires first { first < link_count plan.now }
    requires second { second < link_count plan.now }
    ensures value { result ≡ or_lesser (goes_on plan.now first second) found dest }
{
    if !goes_on(plan, first, second, dest) {
        return found;
    }
    match found {
        None => Some(dest),
        Some(least) => Some(least.min(dest)),
    }
}

// Whether a packet for an id may go on from a directed link to another.
fn goes_on(plan: &Plan, first: u32, second: u32, dest: u16) -> bool
    requires first { first < link_count plan.now }
    requires second { second < link_count plan.now }
    ensures value { result ≡ goes_on plan.now first second dest }
{
    let route = link_route(plan, first);
    let net = plan.nodes()[route.from as usize].nets[route.from_end as usize];
    is_next(plan, route.from, net, dest, first) && is_next(plan, route.to, net, dest, second)
}
