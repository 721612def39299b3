//! What a system text stands for, or how it is refused: definitions alone, with the plain types that they speak of. See
//! docs/SYSTEM_TEXT.md.
#![tactic(auto)]

mod cut_text;
mod first_fault;
mod frame_line;

pub use cut_text::cut_texts_are_refused;
pub use first_fault::least_faulty_line_decides;
pub use frame_line::{
    BitLine, EndName, FrameLine, GivenNode, LinkLine, NodeLine, PinName, PlayLine, SectionKind,
    WireLine,
};

/// Why the frame of a system text is refused. See docs/SYSTEM_TEXT.md.
#[derive(Clone, Copy, PartialEq, Eq, Debug)]
pub enum SysKind {
    /// S1: the first line with words is not `xs1 1` or `xs1 2`, or there is none.
    FirstLine,
    /// S2: a line that has no known form, or a byte that is not allowed.
    BadLine,
    /// S3: a node's number, a node's source, `pins` or `play` is given twice.
    GivenTwice,
    /// S4: two nodes have one id.
    IdTwice,
    /// S5: a link end stands in two links, or twice in a bit's line.
    LinkEndTwice,
    /// S6: a link joins a node to itself.
    LinkToItself,
    /// S7: a number outside its range.
    NumberOutOfRange,
    /// S8: a node has no source.
    NodeWithoutSource,
    /// S9: a section has no line `end`.
    SectionNotEnded,
    /// S10: more than 4,194,304 bytes.
    TooLong,
    /// S11: a bit of a node is given twice.
    BitTwice,
    /// S12: a node or an end that no earlier line gave.
    NoSuchNode,
    /// S13: the 17th node, or the 49th link.
    TooMany,
    /// S14: a wire joins two pins of one node.
    WireWithinNode,
    /// S15: a wire joins pins of ports of two widths.
    WidthsDiffer,
    /// S16: two wires lead to one pin.
    PinWiredTwice,
    /// S17: the 33rd wire.
    TooManyWires,
}
