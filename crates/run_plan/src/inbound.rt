//! `Inbound`, the arcs that come to a node's link ends, and what arrives by them.
ghost use Rattle.std.specs.Prelude.{◌≡◌, ◌<◌, ◌≤◌, length, drop};
ghost use Rattle.std.specs.List.{AllByRecursion};
ghost use Rattle.xs_base.specs.declared.numbers.TheConstants.{LINK_ENDS};
ghost use Rattle.sys_plan.specs.Plan.{incoming, link_arcs};
ghost use Rattle.run_plan.specs.Inbound.{arrivals_by, arrived_by, incoming_of, IsBelow, IsNowhere};

use crate::track::Track;
use crossings::Crossing;
use std::marker::Model;
use sys_plan::Plan;
use xs_base::numbers::LINK_ENDS;
use xs_model::Arrivals;

// What arrives where nothing does.
const NOTHING: Arrivals = Arrivals {
    tokens: [None; 8],
    credits: [false; 8],
};

/// The arcs that come to a node's link ends. Contracts see it as an `InboundRec` of
/// `Rattle.run_plan.specs.Inbound`.
#[derive(Drop)]
pub(crate) struct Inbound {
    links: [Option<u32>; 8],
    // No link comes to a link end from this one on.
    reached: usize,
    // It is kept, so that no slot has to make it.
    nothing: Arrivals,
}

impl Model for Inbound {
    ghost use Rattle.run_plan.specs.Inbound.{InboundRec};

    ghost Value = { InboundRec };

    ghost use Rattle.run_plan.specs.Inbound.{IsReachedBelow};

    ghost view = { λ i. record { links = i.links } };

    ghost invariant = { λ i. IsReachedBelow i.reached i.links i.nothing };
}

impl Inbound {
    /// The arcs that come to the link ends of the node at a position.
    pub(crate) fn of(plan: &Plan, n: u8) -> Inbound
        ensures links { result.links ≡ incoming_of plan.now n }
        ensures below { AllByRecursion (IsBelow (length (link_arcs plan.now.links))) result.links }
    {
        let links = links_to(plan, n);
        Inbound {
            links,
            reached: reached_of(&links),
            nothing: NOTHING,
        }
    }

    /// What arrives by the link ends in this slot. One that no arc comes to costs nothing, if none after it is
    /// reached either.
    pub(crate) fn arrivals(&self, tracks: &[Track]) -> Arrivals
        requires below { AllByRecursion (IsBelow (length tracks.now)) self.now.links }
        ensures { result ≡ arrivals_by tracks.now self.now.links }
    {
        let mut tokens = [None; 8];
        let mut credits = [false; 8];
        for end in 0..self.reached {
            let arrived = arrived(tracks, self.links[end]);
            tokens[end] = arrived.token;
            credits[end] = arrived.credit;
        }
        Arrivals { tokens, credits }
    }

    /// What arrives where nothing does.
    pub(crate) fn nothing(&self) -> &Arrivals
        ensures { result.now ≡ NOTHING }
    {
        &self.nothing
    }
}

// The arcs that come to the link ends of the node at a position.
fn links_to(plan: &Plan, n: u8) -> [Option<u32>; 8]
    ensures value { result ≡ incoming_of plan.now n }
    ensures below { AllByRecursion (IsBelow (length (link_arcs plan.now.links))) result }
{
    [
        link_to(plan, n, 0),
        link_to(plan, n, 1),
        link_to(plan, n, 2),
        link_to(plan, n, 3),
        link_to(plan, n, 4),
        link_to(plan, n, 5),
        link_to(plan, n, 6),
        link_to(plan, n, 7),
    ]
}

// The directed link that comes to a link end of the node at a position, where one does.
fn link_to(plan: &Plan, n: u8, end: u8) -> Option<u32>
    requires end { end < LINK_ENDS }
    ensures value { result ≡ incoming plan.now n end }
    ensures below { IsBelow (length (link_arcs plan.now.links)) result }
{
    plan.incoming(n, end)
}

// The least link end such that none from it on is reached.
fn reached_of(links: &[Option<u32>; 8]) -> usize
    ensures within { result ≤ LINK_ENDS }
    ensures rest { AllByRecursion IsNowhere (drop result links.now) }
{
    let mut reached = usize::from(LINK_ENDS);
    while reached > 0 && links[reached - 1].is_none() {
        reached -= 1;
    }
    reached
}

// What arrives by an arc, where there is one.
fn arrived(tracks: &[Track], link: Option<u32>) -> Crossing
    requires below { IsBelow (length tracks.now) link }
    ensures { result ≡ arrived_by tracks.now link }
{
    match link {
        None => Crossing::none(),
        Some(k) => {
            let track = &tracks[k as usize];
            track.arrived
        }
    }
}
