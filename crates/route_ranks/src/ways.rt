//! The directed links by which a node sends on what is for an id.
ghost use Rattle.std.specs.Prelude.{◌≡◌, ◌<◌, ◌≤◌, ◌==◌, length, bit_and, IfSome};
ghost use Rattle.std.specs.Int.{bit_at};
ghost use Rattle.net_model.specs.Ways.{first_difference, ends_of_net, way_to};
ghost use Rattle.rank_model.specs.Next.{link_count, is_behind, is_next, has_next};
ghost use Rattle.route_ranks.specs.Links.{IsLinkRoute};

use plan_routes::{Route, route_of};
use sys_plan::{NodePlan, Plan};

/// How many directed links there are, two for each link.
pub(crate) fn link_count(plan: &Plan) -> u32
    ensures value { result ≡ link_count plan.now }
    ensures most { result ≤ 96 }
{
    2 * plan.links().len() as u32
}

/// Where a directed link leads.
pub(crate) fn link_route(plan: &Plan, link: u32) -> Route
    requires within { link < link_count plan.now }
    ensures route { IsLinkRoute plan.now link result }
{
    plan.keeps();
    route_of(plan, link)
}

/// Whether a directed link is one by which the node at a position sends on what is for an id, in a network.
pub(crate) fn is_next(plan: &Plan, node: u8, net: u8, dest: u16, link: u32) -> bool
    requires there { node < length plan.now.nodes }
    requires within { link < link_count plan.now }
    ensures value { result ≡ is_next plan.now node net dest link }
{
    let route = link_route(plan, link);
    route.from == node && leads(&plan.nodes()[node as usize], route.from_end, net, dest)
}

/// Whether there is one.
pub(crate) fn has_next(plan: &Plan, node: u8, net: u8, dest: u16) -> bool
    requires there { node < length plan.now.nodes }
    ensures value { result ≡ has_next plan.now node net dest }
{
    for link in 0..link_count(plan) {
        if is_next(plan, node, net, dest, link) {
            return true;
        }
    }
    false
}

/// Whether a link end, 0 to 7, is one of those by which a node sends on what is for an id, in a network, 0 to 3. It takes no memory. See
/// docs/LINKS.md.
pub fn leads(node: &NodePlan, end: u8, net: u8, dest: u16) -> bool
    requires within { end < 8 }
    ensures value { result ≡ is_behind end (way_to node.now.id node.now.ways node.now.nets net dest) }
{
    match first_difference(node.id, dest) {
        None => false,
        Some(bit) => is_among(node.ways[bit as usize], &node.nets, end, net),
    }
}

// Whether a link end is one of those in a mask, and its link is of a network.
fn is_among(ends: u8, nets: &[u8; 8], end: u8, net: u8) -> bool
    requires within { end < 8 }
    ensures value { result ≡ (bit_at (bit_and ends (ends_of_net nets.now net)) end == 1) }
{
    bit_at(u16::from(ends), end) == 1 && nets[end as usize] == net
}

/// The highest bit in which two ids differ: None exactly where they are equal. It takes no memory. See docs/LINKS.md.
pub fn first_difference(a: u16, b: u16) -> Option<u8>
    ensures value { result ≡ first_difference 16 a b }
    ensures within { IfSome result (λ bit. bit < 16) }
{
    for bit in (0..16u8).rev() {
        if bit_at(a, bit) != bit_at(b, bit) {
            return Some(bit);
        }
    }
    None
}

// A bit of a number.
fn bit_at(value: u16, bit: u8) -> u16
    requires within { bit < 16 }
    ensures value { result ≡ bit_at value bit }
{
    (value >> bit) & 1
}
