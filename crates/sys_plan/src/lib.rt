//! The plan of a system: its nodes, the links and wires between them, the script of its pins, and the steps of its schedule. See
//! docs/SYSTEM_TEXT.md, docs/PINS.md, docs/WIRES.md and docs/LOOKAHEAD.md.
#![tactic(auto)]

ghost use Rattle.std.specs.Prelude.{◌≡◌};
ghost use Rattle.sys_plan.specs.NodePlans.{plain_plan};

mod system_plan;

pub use system_plan::{ENDS, Plan};
use xs_instructions::Image;

/// A node: its number, which names it in texts (0 to 99), the edition of its system (1 or 2, which all nodes of a plan have alike), its id on the network, its image, for
/// each bit of an id the link ends that lead to nodes whose id differs there first, as a mask, and for each link end the
/// network of its link, 0 where it has none.
#[derive(Drop)]
pub struct NodePlan {
    pub number: u8,
    pub edition: u8,
    pub id: u16,
    pub image: Image,
    pub ways: [u8; 16],
    pub nets: [u8; 8],
}

impl NodePlan {
    /// A node of edition 1, where every link is of network 0.
    pub fn plain(number: u8, id: u16, image: Image, ways: [u8; 16]) -> NodePlan
        ensures value { result ≡ plain_plan number id image ways }
    {
        NodePlan {
            number,
            edition: 1,
            id,
            image,
            ways,
            nets: [0; 8],
        }
    }
}

/// A link: it joins link end `a_end` of the node at position `a` to link end `b_end` of the node at position `b`, in
/// both directions. The delay, 1 to 1,000 slots, is what a token or a credit takes; the gap, 4 to 1,000 slots, is
/// the least time from one token that a link end sends to the next. The network is 0 to 3. See docs/LINKS.md.
#[derive(Clone, Copy)]
pub struct LinkPlan {
    pub a: u8,
    pub a_end: u8,
    pub b: u8,
    pub b_end: u8,
    pub delay: u32,
    pub gap: u32,
    pub net: u8,
}

/// A wire: it joins the pin of port `a_port` of the node at position `a` to the pin of port `b_port` of the node at position `b`, a port
/// of the same width. What the first port drives, and 0 where it drives nothing, the second pin shows the delay later, 1 to 1,000 slots, where
/// its own port does not drive it. Ports are 0 to 28. There are at most 32 wires, in edition 2 alone, and no pin is the second end of two.
/// See docs/WIRES.md.
#[derive(Clone, Copy)]
pub struct WirePlan {
    pub a: u8,
    pub a_port: u8,
    pub b: u8,
    pub b_port: u8,
    pub delay: u32,
}

/// A step of a schedule, in which nodes run one at a time and hand on by hand what their links and wires carry. A node is named by position,
/// and an end by its number: a link end is 0 to 7, and the ends of wires are 8 and so on, counted apart for those that come to a node and
/// those that leave it.
/// See docs/LOOKAHEAD.md.
#[derive(Clone, Copy)]
pub enum Step {
    /// The node reads all that is published of the link or wire that comes to an end.
    Take { node: u8, end: u8 },
    /// The node runs so many slots, or fewer where its horizon stops it.
    Run { node: u8, count: u32 },
    /// The node publishes what it has sent by an end, in all slots that it has run.
    Send { node: u8, end: u8 },
}
