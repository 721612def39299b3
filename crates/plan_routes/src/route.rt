//! `Route`, from where to where an arc leads.
ghost use Rattle.std.specs.Prelude.{◌≡◌, ◌<◌, ◌≤◌, ◌+◌, length};
ghost use Rattle.sys_plan.specs.Plan.{arc_count, link_arcs, count_from, count_to};
ghost use Rattle.plan_routes.specs.Routes.{IsRouteOf};

use sys_plan::{Plan, WirePlan};

/// The node and the end by which an arc leaves, and those to which it comes: a node by position, and an end by its number, 0 to 39, which is
/// a link end below 8, and else an end of a wire.
#[derive(Clone, Copy)]
pub struct Route {
    pub from: u8,
    pub from_end: u8,
    pub to: u8,
    pub to_end: u8,
}

/// Where the arc with a number leads: those of links come first, and then those of wires.
pub fn route_of(plan: &Plan, link: u32) -> Route
    requires link { link < arc_count plan.now }
    ensures route { IsRouteOf plan.now link result }
{
    let number = link as usize;
    let directed = 2 * plan.links().len();
    if number < directed {
        route_of_link(plan, number)
    } else {
        route_of_wire(plan, number - directed)
    }
}

// Where the arc with a number leads, which is one of a link.
fn route_of_link(plan: &Plan, link: usize) -> Route
    requires link { link < length (link_arcs plan.now.links) }
    ensures route { IsRouteOf plan.now link result }
{
    let of = plan.links()[link / 2];
    if link % 2 == 0 {
        Route {
            from: of.a,
            from_end: of.a_end,
            to: of.b,
            to_end: of.b_end,
        }
    } else {
        Route {
            from: of.b,
            from_end: of.b_end,
            to: of.a,
            to_end: of.a_end,
        }
    }
}

// Where the arc of a wire leads, by its number among wires. The ends below 8 are those of links.
fn route_of_wire(plan: &Plan, wire: usize) -> Route
    requires wire { wire < length plan.now.wires }
    ensures route { IsRouteOf plan.now (length (link_arcs plan.now.links) + wire) result }
{
    let of = plan.wires()[wire];
    let earlier = &plan.wires()[..wire];
    Route {
        from: of.a,
        from_end: 8 + wires_from(earlier, of.a),
        to: of.b,
        to_end: 8 + wires_to(earlier, of.b),
    }
}

// How many of these wires leave a node.
fn wires_from(wires: &[WirePlan], node: u8) -> u8
    requires few { length wires.now ≤ 32 }
    ensures value { result ≡ count_from node wires.now }
    ensures most { result ≤ 32 }
{
    let mut count = 0;
    for wire in wires {
        if wire.a == node {
            count += 1;
        }
    }
    count
}

// How many of these wires come to a node.
fn wires_to(wires: &[WirePlan], node: u8) -> u8
    requires few { length wires.now ≤ 32 }
    ensures value { result ≡ count_to node wires.now }
    ensures most { result ≤ 32 }
{
    let mut count = 0;
    for wire in wires {
        if wire.b == node {
            count += 1;
        }
    }
    count
}
