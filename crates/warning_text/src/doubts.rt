//! What is doubted in the ways from node to node.
ghost use Rattle.std.specs.Prelude.{◌≡◌, ◌<◌, ◌≤◌, option_map, IfSome};
ghost use Rattle.warning_model.specs.Ways.{is_bit, differs_first, doubt_of_bit, doubt_of_bit_with, doubt_of_bit_line, doubt_of_difference, doubt_of_way};
ghost use Rattle.warning_text.specs.Kept.{doubt_of};

use crate::places::is_among;
use crate::warning::Doubt;
use route_ranks::first_difference;
use sys_plan::{NodePlan, Plan};

// Whether it is this bit.
fn is_bit(bit: u8, found: Option<u8>) -> bool
    ensures { result ≡ is_bit bit found }
{
    match found {
        None => false,
        Some(b) => b == bit,
    }
}

// Whether an id differs first in a bit from that of one of these nodes.
fn differs_first(id: u16, bit: u8, nodes: &[NodePlan]) -> bool
    ensures { result ≡ differs_first id bit nodes.now }
{
    nodes
        .iter()
        .any(|node| is_bit(bit, first_difference(id, node.id)))
}

fn doubt_of_bit<'a>(nodes: &[NodePlan], node: &NodePlan, bit: u8) -> Option<Doubt<'a>>
    ensures { option_map doubt_of result ≡ doubt_of_bit nodes.now node.now bit }
{
    if differs_first(node.id, bit, nodes) {
        return None;
    }
    Some(Doubt::NoDifference {
        node: node.number,
        bit,
    })
}

// Of the node with a number.
#[tactic(auto, unfolding(warning_model::specs::Ways::doubt_of_bit_with))]
fn doubt_of_bit_with<'a>(nodes: &[NodePlan], number: u32, bit: u8) -> Option<Doubt<'a>>
    ensures { option_map doubt_of result ≡ doubt_of_bit_with nodes.now number bit nodes.now }
{
    for node in nodes {
        if u32::from(node.number) == number {
            return doubt_of_bit(nodes, node, bit);
        }
    }
    None
}

/// Of a line `bit N B ..`, by both numbers.
pub(crate) fn doubt_of_bit_line<'a>(
    plan: &Plan,
    number: Option<u32>,
    bit: Option<u32>,
) -> Option<Doubt<'a>>
    requires { IfSome bit (λ b. b ≤ 15) }
    ensures { option_map doubt_of result ≡ doubt_of_bit_line plan.now number bit }
{
    match (number, bit) {
        (Some(number), Some(bit)) => doubt_of_bit_with(plan.nodes(), number, bit as u8),
        _ => None,
    }
}

// Of the way to another node, by the bit in which the ids differ first.
fn doubt_of_difference<'a>(node: &NodePlan, other: u8, found: Option<u8>) -> Option<Doubt<'a>>
    requires { IfSome found (λ bit. bit < 16) }
    ensures { option_map doubt_of result ≡ doubt_of_difference node.now other found }
{
    let bit = found?;
    if node.ways[bit as usize] != 0 {
        return None;
    }
    Some(Doubt::NoWay {
        node: node.number,
        other,
        bit,
    })
}

/// Of the way to another node, where links lead to these places.
pub(crate) fn doubt_of_way<'a>(
    node: &NodePlan,
    places: &[u8],
    place: u8,
    other: &NodePlan,
) -> Option<Doubt<'a>>
    ensures { option_map doubt_of result ≡ doubt_of_way node.now places.now place other.now }
{
    if !is_among(places, place) {
        return None;
    }
    doubt_of_difference(node, other.number, first_difference(node.id, other.id))
}
