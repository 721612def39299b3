//! `Plan`, the plan of a system.
ghost use Rattle.std.specs.Prelude.{◌≡◌, ◌<◌, ◌≤◌, ◌+◌, ◌*◌, ℕ, length, map, slice_index, None, IfSome, IsSome, []};
ghost use Rattle.sys_plan.specs.Plan.{PlanRec, Arc, IsPlan, outgoing, incoming, arc_count, link_arcs, wire_arcs, first_arc, leaves_by, comes_to, delay_of, gap_of, gap_by, gaps_of};

use crate::{LinkPlan, NodePlan, Step, WirePlan};
use pin_scripts::Script;
use std::marker::Model;

/// How many ends a node may have to which arcs come, and how many by which arcs leave: 8 link ends, and an end for each of 32 wires.
pub const ENDS: usize = 40;

// The first end that is none of a link, but of a wire.
const FIRST_WIRE_END: u8 = 8;

/// The plan of a system: its nodes by ascending number, its links, the script of its pins, the steps of its schedule, and its wires. The
/// record `IsPlan` says what every plan keeps. See docs/SYSTEM_TEXT.md.
///
/// An arc leads one way from an end of a node to an end of another. Each link is two of them, its directed links: number 2k leads from
/// the first to the second end of link k, counted from 0, and 2k + 1 leads back. Each wire is one: with L links, wire w has the number
/// 2L + w. It leaves its first node by the end 8 plus the number of wires before it that leave that node, and comes to its second node by
/// the end 8 plus the number of those before it that come there. See docs/LINKS.md and docs/WIRES.md.
#[derive(Drop)]
pub struct Plan {
    nodes: Vec<NodePlan>,
    links: Vec<LinkPlan>,
    script: Script,
    steps: Vec<Step>,
    wires: Vec<WirePlan>,
}

impl Model for Plan {
    ghost use Rattle.sys_plan.specs.Plan.{PlanRec, IsPlan};

    ghost Value = { PlanRec };

    ghost view = { λ p. record { nodes = p.nodes.items; links = p.links.items; script = p.script; steps = p.steps.items; wires = p.wires.items } };

    ghost invariant = { λ p. IsPlan (record { nodes = p.nodes.items; links = p.links.items; script = p.script; steps = p.steps.items; wires = p.wires.items }) };
}

impl Plan {
    /// The plan of these nodes and links, of a script of their pins, of the steps of a schedule, and of these wires. It takes no memory.
    pub fn of(
        nodes: Vec<NodePlan>,
        links: Vec<LinkPlan>,
        script: Script,
        steps: Vec<Step>,
        wires: Vec<WirePlan>,
    ) -> Plan
        requires parts { IsPlan (record { nodes = nodes.items; links = links.items; script = script; steps = steps.items; wires = wires.items }) }
        ensures value { result ≡ record { nodes = nodes.items; links = links.items; script = script; steps = steps.items; wires = wires.items } }
    {
        Plan {
            nodes,
            links,
            script,
            steps,
            wires,
        }
    }

    /// What every plan keeps, as a law: it does nothing.
    #[inline]
    pub fn keeps(&self)
        ensures plan { IsPlan self.now }
    {
        let _ = &self.nodes;
    }

    /// The nodes by ascending number, at most 16.
    pub fn nodes(&self) -> &[NodePlan]
        ensures value { result.now ≡ self.now.nodes }
        ensures plan { IsPlan self.now }
    {
        self.nodes.as_slice()
    }

    /// The links, at most 48, which name their nodes by position in `nodes`.
    pub fn links(&self) -> &[LinkPlan]
        ensures value { result.now ≡ self.now.links }
        ensures plan { IsPlan self.now }
    {
        self.links.as_slice()
    }

    /// What drives the pins of the nodes from outside. It names them by number.
    pub fn script(&self) -> &Script
        ensures value { result.now ≡ self.now.script }
        ensures plan { IsPlan self.now }
    {
        &self.script
    }

    /// The steps of the schedule, in order. They name nodes by position in `nodes`.
    pub fn steps(&self) -> &[Step]
        ensures value { result.now ≡ self.now.steps }
        ensures plan { IsPlan self.now }
    {
        self.steps.as_slice()
    }

    /// The wires, at most 32, which name their nodes by position in `nodes`.
    pub fn wires(&self) -> &[WirePlan]
        ensures value { result.now ≡ self.now.wires }
        ensures plan { IsPlan self.now }
    {
        self.wires.as_slice()
    }

    /// The number of the arc that leaves by an end of the node at a position. `None` comes exactly where neither a link nor a
    /// wire leaves by it; any end may be asked for, and from `ENDS` on there is none.
    pub fn outgoing(&self, node: u8, end: u8) -> Option<u32>
        ensures value { result ≡ outgoing self.now node end }
        ensures none_past { ENDS ≤ end → result ≡ None }
        ensures bound { IfSome result (λ link. link < arc_count self.now) }
    {
        if end < FIRST_WIRE_END {
            return first_leaving(self.links(), node, end);
        }
        match wire_leaving(self.wires(), node, end - FIRST_WIRE_END) {
            None => None,
            Some(wire) => Some(self.directed_links() + wire),
        }
    }

    /// The number of the arc that comes to an end of the node at a position. `None` comes exactly where neither a link nor a
    /// wire comes to it; any end may be asked for, and from `ENDS` on there is none.
    pub fn incoming(&self, node: u8, end: u8) -> Option<u32>
        ensures value { result ≡ incoming self.now node end }
        ensures none_past { ENDS ≤ end → result ≡ None }
        ensures bound { IfSome result (λ link. link < arc_count self.now) }
    {
        if end < FIRST_WIRE_END {
            return first_coming(self.links(), node, end);
        }
        match wire_coming(self.wires(), node, end - FIRST_WIRE_END) {
            None => None,
            Some(wire) => Some(self.directed_links() + wire),
        }
    }

    /// How many ends the node at a position has by which arcs may leave, 8 to `ENDS`: its link ends, and one for each wire that leaves it.
    pub fn ends_out(&self, node: u8) -> u8
        ensures past { (end : ℕ) → result ≤ end → outgoing self.now node end ≡ None }
        ensures least { FIRST_WIRE_END ≤ result }
        ensures most { result ≤ ENDS }
    {
        let mut ends = FIRST_WIRE_END;
        for wire in self.wires() {
            if wire.a == node {
                ends += 1;
            }
        }
        ends
    }

    /// How many ends the node at a position has to which arcs may come, 8 to `ENDS`: its link ends, and one for each wire that comes to it.
    pub fn ends_in(&self, node: u8) -> u8
        ensures past { (end : ℕ) → result ≤ end → incoming self.now node end ≡ None }
        ensures least { FIRST_WIRE_END ≤ result }
        ensures most { result ≤ ENDS }
    {
        let mut ends = FIRST_WIRE_END;
        for wire in self.wires() {
            if wire.b == node {
                ends += 1;
            }
        }
        ends
    }

    /// The delay of the arc with a number, 1 to 1,000 slots.
    #[tactic(auto, using(crate::proofs::Arcs::arcs_length))]
    pub fn delay(&self, link: u32) -> u32
        requires number { link < arc_count self.now }
        ensures value { result ≡ delay_of self.now link }
        ensures least { 1 ≤ result }
        ensures most { result ≤ 1000 }
    {
        let directed = self.directed_links();
        if link < directed {
            link_delay(self.links(), link)
        } else {
            wire_delay(self.wires(), link - directed)
        }
    }

    // How many directed links there are.
    #[tactic(auto, using(crate::proofs::Arcs::arcs_length))]
    fn directed_links(&self) -> u32
        ensures value { result ≡ length (link_arcs self.now.links) }
        ensures most { result ≤ 96 }
    {
        2 * self.links.len() as u32
    }

    /// The gap of each link end of the node at a position, in slots, 0 where no link is.
    pub fn gaps(&self, node: u8) -> [u32; 8]
        ensures value { result ≡ gaps_of self.now node }
        ensures there { (end : ℕ) → end < 8 → IsSome (outgoing self.now node end) → 4 ≤ slice_index result end }
    {
        [
            self.gap(node, 0),
            self.gap(node, 1),
            self.gap(node, 2),
            self.gap(node, 3),
            self.gap(node, 4),
            self.gap(node, 5),
            self.gap(node, 6),
            self.gap(node, 7),
        ]
    }

    // The gap of a link end, 0 where no link is.
    #[tactic(auto, using(crate::proofs::Arcs::arcs_length))]
    fn gap(&self, node: u8, end: u8) -> u32
        requires end { end < 8 }
        ensures value { result ≡ gap_by self.now (outgoing self.now node end) }
        ensures there { IsSome (outgoing self.now node end) → 4 ≤ result }
    {
        match first_leaving(self.links(), node, end) {
            None => 0,
            Some(link) => {
                let link = &self.links[(link / 2) as usize];
                link.gap
            }
        }
    }
}

// The delay of a directed link, by its number.
#[tactic(auto, using(crate::proofs::Arcs::arcs_length))]
fn link_delay(links: &[LinkPlan], link: u32) -> u32
    requires number { link < length (link_arcs links.now) }
    ensures { result ≡ slice_index (map (λ (d : Arc). d.delay) (link_arcs links.now)) link }
{
    let link = &links[(link / 2) as usize];
    link.delay
}

// The delay of a wire, by its number among wires.
#[tactic(auto, using(crate::proofs::Wires::wires_length))]
fn wire_delay(wires: &[WirePlan], wire: u32) -> u32
    requires number { wire < length wires.now }
    ensures { result ≡ slice_index (map (λ (d : Arc). d.delay) (wire_arcs [] wires.now)) wire }
{
    let wire = &wires[wire as usize];
    wire.delay
}

// The number of the first arc that leaves by a link end.
#[tactic(auto, using(crate::proofs::Arcs::arcs_length))]
fn first_leaving(links: &[LinkPlan], node: u8, end: u8) -> Option<u32>
    requires few { length links.now ≤ 48 }
    ensures value { result ≡ first_arc (leaves_by node end) 0 (link_arcs links.now) }
    ensures bound { IfSome result (λ link. link < length (link_arcs links.now)) }
{
    let mut number = 0;
    for link in links {
        if link.a == node && link.a_end == end {
            return Some(number);
        }
        if link.b == node && link.b_end == end {
            return Some(number + 1);
        }
        number += 2;
    }
    None
}

// The number of the first arc that comes to a link end.
#[tactic(auto, using(crate::proofs::Arcs::arcs_length))]
fn first_coming(links: &[LinkPlan], node: u8, end: u8) -> Option<u32>
    requires few { length links.now ≤ 48 }
    ensures value { result ≡ first_arc (comes_to node end) 0 (link_arcs links.now) }
    ensures bound { IfSome result (λ link. link < length (link_arcs links.now)) }
{
    let mut number = 0;
    for link in links {
        if link.b == node && link.b_end == end {
            return Some(number);
        }
        if link.a == node && link.a_end == end {
            return Some(number + 1);
        }
        number += 2;
    }
    None
}

// The number, among wires, of the one before which so many leave a node, and which leaves it too.
fn wire_leaving(wires: &[WirePlan], node: u8, before: u8) -> Option<u32>
    requires few { length wires.now ≤ 32 }
    ensures value { result ≡ first_arc (leaves_by node (8 + before)) 0 (wire_arcs [] wires.now) }
    ensures bound { IfSome result (λ wire. wire < length wires.now) }
{
    let mut number = 0;
    let mut left = before;
    for wire in wires {
        if wire.a == node {
            if left == 0 {
                return Some(number);
            }
            left -= 1;
        }
        number += 1;
    }
    None
}

// The number, among wires, of the one before which so many come to a node, and which comes to it too.
fn wire_coming(wires: &[WirePlan], node: u8, before: u8) -> Option<u32>
    requires few { length wires.now ≤ 32 }
    ensures value { result ≡ first_arc (comes_to node (8 + before)) 0 (wire_arcs [] wires.now) }
    ensures bound { IfSome result (λ wire. wire < length wires.now) }
{
    let mut number = 0;
    let mut left = before;
    for wire in wires {
        if wire.b == node {
            if left == 0 {
                return Some(number);
            }
            left -= 1;
        }
        number += 1;
    }
    None
}
