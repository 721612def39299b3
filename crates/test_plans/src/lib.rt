//! Nodes and plans that tests of several crates build alike.
#![tactic(auto)]

ghost use Rattle.std.specs.Prelude.{◌≡◌, ◌<◌, ◌≤◌, [], IfOk};
ghost use Rattle.xs_instructions.specs.Image.{IsImage};
ghost use Rattle.test_plans.specs.Plans as plans;

use pin_scripts::Script;
use std::alloc::{AllocError, Global};
use sys_plan::{LinkPlan, NodePlan, Plan};
use xs_instructions::{Image, Instr, Symbols};

/// A node with this code and these data bytes, without labels, whose constant pool begins at an address. Its number is 0. For each bit
/// of an id, `way` are the link ends that lead to nodes whose id differs there first, as a mask. The error is want of memory.
pub fn loaded_node(
    alloc: Global,
    id: u16,
    code: &[Instr],
    bytes: &[u8],
    cp_at: u32,
    way: u8,
) -> Result<NodePlan, AllocError>
    requires parts { IsImage (record { code = code.now; bytes = bytes.now; cp_at = cp_at; symbols = [] }) }
    ensures value { IfOk result (λ node. node ≡ plans.loaded_node id (record { code = code.now; bytes = bytes.now; cp_at = cp_at; symbols = [] }) way) }
{
    let code = Vec::from_slice(alloc, code)?;
    let bytes = Vec::from_slice(alloc, bytes)?;
    let image = Image::of(code, bytes, cp_at, Symbols::of_source(alloc, b""));
    Ok(NodePlan::plain(0, id, image, [way; 16]))
}

/// A node with no code and no ways, whose id is its number, 0 to 99. It takes no memory.
pub fn bare_node(alloc: Global, number: u8) -> NodePlan
    requires { number < 100 }
    ensures value { result ≡ plans.bare_node number }
{
    let image = Image::of(
        Vec::new(alloc),
        Vec::new(alloc),
        0x0001_0000,
        Symbols::of_source(alloc, b""),
    );
    NodePlan::plain(number, u16::from(number), image, [0; 16])
}

/// A link from link end 7 of the node at a position, 0 to 14, to link end 0 of the next one, with a gap of 4 slots. It takes no memory.
pub fn link_on(first: u8, delay: u32) -> LinkPlan
    requires { first < 15 }
    ensures value { result ≡ plans.link_on first delay }
{
    LinkPlan {
        a: first,
        a_end: 7,
        b: first + 1,
        b_end: 0,
        delay,
        gap: 4,
        net: 0,
    }
}

/// Two bare nodes, and a link from link end 7 of the first to link end 0 of the second, with a delay of 1 to 1,000 slots and a gap of
/// 4. The error is want of memory.
pub fn pair(alloc: Global, delay: u32) -> Result<Plan, AllocError>
    requires least { 1 ≤ delay }
    requires most { delay ≤ 1000 }
    ensures value { IfOk result (λ plan. plan ≡ plans.pair delay) }
{
    let mut nodes = Vec::new(alloc);
    nodes.push(bare_node(alloc, 0))?;
    nodes.push(bare_node(alloc, 1))?;
    let mut links = Vec::new(alloc);
    links.push(link_on(0, delay))?;
    Ok(Plan::of(
        nodes,
        links,
        Script::empty(),
        Vec::new(alloc),
        Vec::new(alloc),
    ))
}

/// Three bare nodes in a row, and a link from link end 7 of each to link end 0 of the next, with a delay of 1 to 1,000 slots and a gap
/// of 4. The error is want of memory.
pub fn row_of_three(alloc: Global, delay: u32) -> Result<Plan, AllocError>
    requires least { 1 ≤ delay }
    requires most { delay ≤ 1000 }
    ensures value { IfOk result (λ plan. plan ≡ plans.row_of_three delay) }
{
    let mut nodes = Vec::new(alloc);
    nodes.push(bare_node(alloc, 0))?;
    nodes.push(bare_node(alloc, 1))?;
    nodes.push(bare_node(alloc, 2))?;
    let mut links = Vec::new(alloc);
    links.push(link_on(0, delay))?;
    links.push(link_on(1, delay))?;
    Ok(Plan::of(
        nodes,
        links,
        Script::empty(),
        Vec::new(alloc),
        Vec::new(alloc),
    ))
}
