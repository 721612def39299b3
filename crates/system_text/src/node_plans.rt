ghost use Rattle.std.specs.Prelude.{◌≡◌, ◌==◌};
ghost use Rattle.std.specs.List.{list_any};
ghost use Rattle.source_model.specs.Source.{assembled_lines};
ghost use Rattle.system_model.specs.System.{edition_given, node_plans, planned, section_lines, nets_of, net_of_end, ways_of, way, ends_for, mask_where};
ghost use Rattle.system_text.specs.Plans.{GivesNode, GivesNodes};

use crate::end_numbers::is_among;
use crate::frame::{Frame, is_same_end};
use crate::system_error::SystemError;
use std::alloc::Global;
use sys_plan::NodePlan;
use system_model::{BitLine, EndName, GivenNode, LinkLine, SectionKind};
use xs_assembler::{AsmError, assemble};

// The plans of the nodes of a frame by ascending number, or the refusal of the first source that is refused.
pub fn node_plans(alloc: Global, frame: &Frame) -> Result<Vec<NodePlan>, SystemError>
    ensures { GivesNodes (node_plans (edition_given frame.now.edition) frame.now.links frame.now.bits frame.now.sections frame.now.nodes) result }
{
    let nodes = frame.nodes();
    let mut plans = Vec::new(alloc);
    for node in nodes {
        match node_plan(alloc, frame, *node) {
            Ok(plan) => plans.push(plan)?,
            Err(error) => return Err(error),
        }
    }
    Ok(plans)
}

// The plan of a node, or the refusal of its source.
fn node_plan(alloc: Global, frame: &Frame, node: GivenNode) -> Result<NodePlan, SystemError>
    ensures { GivesNode (planned (edition_given frame.now.edition) frame.now.links frame.now.bits node (assembled_lines (section_lines frame.now.sections (SectionKind.Source node.number)))) result }
{
    match assemble(alloc, frame.section(SectionKind::Source(node.number))) {
        Ok(image) => {
            let ways = ways_of(frame.bits(), node.number);
            Ok(NodePlan {
                number: node.number,
                edition: frame.edition(),
                id: node.id,
                image,
                ways,
                nets: nets_of(frame.links(), node.number),
            })
        }
        Err(AsmError::Fault { line, kind }) => Err(SystemError::Source {
            node: node.number,
            line,
            kind,
        }),
        Err(AsmError::Memory) => Err(SystemError::Memory),
    }
}

// The network of the link at each link end of a node, 0 where no link is.
fn nets_of(links: &[LinkLine], node: u8) -> [u8; 8]
    ensures { result ≡ nets_of links.now node }
{
    [
        net_of_end(links, EndName { node, end: 0 }),
        net_of_end(links, EndName { node, end: 1 }),
        net_of_end(links, EndName { node, end: 2 }),
        net_of_end(links, EndName { node, end: 3 }),
        net_of_end(links, EndName { node, end: 4 }),
        net_of_end(links, EndName { node, end: 5 }),
        net_of_end(links, EndName { node, end: 6 }),
        net_of_end(links, EndName { node, end: 7 }),
    ]
}

// The network of the link at a link end, 0 where no link is.
fn net_of_end(links: &[LinkLine], name: EndName) -> u8
    ensures { result ≡ net_of_end links.now name }
{
    for link in links {
        if is_same_end(link.a, name) || is_same_end(link.b, name) {
            return link.net;
        }
    }
    0
}

// The ways of a node, for each bit of an id.
fn ways_of(bits: &[BitLine], number: u8) -> [u8; 16]
    ensures { result ≡ ways_of bits.now number }
{
    [
        way(bits, number, 0),
        way(bits, number, 1),
        way(bits, number, 2),
        way(bits, number, 3),
        way(bits, number, 4),
        way(bits, number, 5),
        way(bits, number, 6),
        way(bits, number, 7),
        way(bits, number, 8),
        way(bits, number, 9),
        way(bits, number, 10),
        way(bits, number, 11),
        way(bits, number, 12),
        way(bits, number, 13),
        way(bits, number, 14),
        way(bits, number, 15),
    ]
}

// The link ends by which a node sends what differs from its id at a bit first, as a mask: 1 is link end 0 alone.
fn way(bits: &[BitLine], number: u8, bit: u8) -> u8
    ensures { result ≡ way bits.now number bit }
{
    mask_of(ends_for(bits, number, bit))
}

// The link ends of the line of this bit of the node, none where no line gives it.
fn ends_for(bits: &[BitLine], number: u8, bit: u8) -> &[u8]
    ensures { result.now ≡ ends_for bits.now number bit }
{
    for line in bits {
        if line.node == number && line.bit == bit {
            return &line.ends;
        }
    }
    &[]
}

// These link ends as a mask.
fn mask_of(ends: &[u8]) -> u8
    ensures { result ≡ mask_where (λ end. list_any (λ e. e == end) ends.now) 8 }
{
    let mut mask = 0;
    for end in 0..8u8 {
        if is_among(ends, end) {
            mask |= 1 << end;
        }
    }
    mask
}
