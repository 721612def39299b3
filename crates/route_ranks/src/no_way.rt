//! Whether packets have a way on, wherever they are.
ghost use Rattle.std.specs.Prelude.{◌≡◌, ◌<◌, length};
ghost use Rattle.rank_model.specs.Verdicts.{has_net, is_cut_off, no_way_in, no_way_to, no_way_from, no_way};

use crate::ways::has_next;
use rank_model::Verdict;
use sys_plan::{LinkPlan, Plan};

/// The first node from which no link of a network leads on towards another.
pub(crate) fn no_way(plan: &Plan) -> Option<Verdict>
    ensures value { result ≡ no_way plan.now }
{
    for from in 0..node_count(plan) {
        let found = no_way_from(plan, from);
        if found.is_some() {
            return found;
        }
    }
    None
}

// How many nodes there are.
fn node_count(plan: &Plan) -> u8
    ensures value { result ≡ length plan.now.nodes }
{
    plan.nodes().len() as u8
}

// The first node towards which no link of a network leads on from the node at a position.
fn no_way_from(plan: &Plan, from: u8) -> Option<Verdict>
    requires from { from < length plan.now.nodes }
    ensures value { result ≡ no_way_from plan.now from }
{
    for to in 0..node_count(plan) {
        let found = no_way_to(plan, from, to);
        if found.is_some() {
            return found;
        }
    }
    None
}

// The first network in which no link leads on from the node at a position towards the one at another.
fn no_way_to(plan: &Plan, from: u8, to: u8) -> Option<Verdict>
    requires from { from < length plan.now.nodes }
    requires to { to < length plan.now.nodes }
    ensures value { result ≡ no_way_to plan.now from to }
{
    for net in 0..4u8 {
        let found = no_way_in(plan, from, to, net);
        if found.is_some() {
            return found;
        }
    }
    None
}

// Whether no link of a network leads on from the node at a position towards the one at another.
fn no_way_in(plan: &Plan, from: u8, to: u8, net: u8) -> Option<Verdict>
    requires from { from < length plan.now.nodes }
    requires to { to < length plan.now.nodes }
    ensures value { result ≡ no_way_in plan.now from to net }
{
    if is_cut_off(plan, from, to, net) {
        let nodes = plan.nodes();
        Some(Verdict::NoWay {
            from: nodes[from as usize].number,
            to: nodes[to as usize].number,
            net,
        })
    } else {
        None
    }
}

// Whether a node is cut off from another in a network that there is.
fn is_cut_off(plan: &Plan, from: u8, to: u8, net: u8) -> bool
    requires from { from < length plan.now.nodes }
    requires to { to < length plan.now.nodes }
    ensures value { result ≡ is_cut_off plan.now from to net }
{
    has_net(plan.links(), net)
        && from != to
        && !has_next(plan, from, net, plan.nodes()[to as usize].id)
}

// Whether some link is of a network, which without a link network 0 is.
fn has_net(links: &[LinkPlan], net: u8) -> bool
    ensures value { result ≡ has_net links.now net }
{
    for link in links {
        if link.net == net {
            return true;
        }
    }
    links.is_empty() && net == 0
}
