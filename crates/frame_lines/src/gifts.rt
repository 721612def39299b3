//! What lines of the frame give.
ghost use Rattle.std.specs.Prelude.{◌≡◌};
ghost use Rattle.system_model.specs.Frame.{is_wire_end};
ghost use Rattle.explain_frame_model.specs.FrameGifts.{is_link_end, is_pin, gives, giver, is_given, count_givers, has_end};

use crate::earlier_line::EarlierLine;
use crate::values::{end_of, node_of, port_in, value_of};
use explain_frame_model::Gift;
use xs_instructions::same_name;

fn is_link_end(node: u32, end: u32, word: &[u8]) -> bool
    ensures { result ≡ is_link_end node end word.now }
{
    node_of(word) == node && end_of(word) == end
}

fn is_pin(node: u32, port: u8, word: &[u8]) -> bool
    ensures { result ≡ is_pin node port word.now }
{
    node_of(word) == node && port_in(word) == port
}

// A line of a link that has a link end.
fn is_linked(node: u32, end: u32, line: &EarlierLine) -> bool
    ensures { result ≡ gives (Gift.LinkEnd node end) line.now }
{
    same_name(b"link", line.name)
        && (is_link_end(node, end, line.second) || is_link_end(node, end, line.third))
}

// The line of a bit of a node.
fn is_bit(node: u32, bit: u32, line: &EarlierLine) -> bool
    ensures { result ≡ gives (Gift.Bit node bit) line.now }
{
    same_name(b"bit", line.name) && value_of(line.second) == node && value_of(line.third) == bit
}

// Whether a line gives something.
fn gives(gift: Gift, line: &EarlierLine) -> bool
    ensures { result ≡ gives gift line.now }
{
    match gift {
        Gift::Node(number) => same_name(b"node", line.name) && value_of(line.second) == number,
        Gift::Id(id) => same_name(b"node", line.name) && value_of(line.fourth) == id,
        Gift::LinkEnd(node, end) => is_linked(node, end, line),
        Gift::Bit(node, bit) => is_bit(node, bit, line),
        Gift::Source(number) => same_name(b"source", line.name) && value_of(line.second) == number,
        Gift::Pins => same_name(b"pins", line.name),
        Gift::Play => same_name(b"play", line.name),
        Gift::WireFrom(node) => same_name(b"wire", line.name) && node_of(line.second) == node,
        Gift::WireTo(node) => same_name(b"wire", line.name) && node_of(line.third) == node,
        Gift::Pin(node, port) => same_name(b"wire", line.name) && is_pin(node, port, line.third),
    }
}

/// The number, from 1, of the first of some lines that gives something, None where none does. See docs/LOOK.md.
pub fn giver(gift: Gift, lines: &[EarlierLine]) -> Option<u32>
    ensures { result ≡ giver gift lines.now }
{
    let line = lines.iter().find(|line| gives(gift, line))?;
    Some(line.number)
}

/// Whether one of some lines gives something. See docs/LOOK.md.
pub fn is_given(gift: Gift, lines: &[EarlierLine]) -> bool
    ensures { result ≡ is_given gift lines.now }
{
    giver(gift, lines).is_some()
}

/// How many of some lines give something. See docs/LOOK.md.
pub fn count_givers(gift: Gift, lines: &[EarlierLine]) -> usize
    ensures { result ≡ count_givers gift lines.now }
{
    lines.iter().filter(|line| gives(gift, line)).count()
}

// Whether an end is one of so many wires, which are the ends from 8 on.
fn is_wire_end(wires: usize, end: u32) -> bool
    ensures { result ≡ is_wire_end wires end }
{
    let end = end as usize;
    8 <= end && end - 8 < wires
}

/// Whether a node has an end: that of a link, or of one of so many wires.
pub(crate) fn has_end(node: u32, wires: usize, lines: &[EarlierLine], end: u32) -> bool
    ensures { result ≡ has_end node wires lines.now end }
{
    is_given(Gift::LinkEnd(node, end), lines) || is_wire_end(wires, end)
}
