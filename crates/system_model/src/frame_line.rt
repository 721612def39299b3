use arrayvec::ArrayVec;
use std::marker::Model;

/// A node's line: the node's number, 0 to 99, and its id.
#[derive(Clone, Copy)]
pub struct NodeLine {
    pub number: u8,
    pub id: u16,
}

/// An end by its name `N:E`: end E of the node with the number N. In a link it is a link end, 0 to 7. In a step it may be that of a wire
/// too, 8 and so on; a number above 255 is taken as 255, an end that no node has.
#[derive(Clone, Copy)]
pub struct EndName {
    pub node: u8,
    pub end: u8,
}

/// A link's line: the two link ends that it joins, its delay (1 to 1,000) and gap (4 to 1,000) in slots, and its network, 0 to 3, which
/// is 0 in edition 1.
#[derive(Clone, Copy)]
pub struct LinkLine {
    pub a: EndName,
    pub b: EndName,
    pub delay: u32,
    pub gap: u32,
    pub net: u8,
}

/// A pin by its name `N:P`: that of port P, 0 to 28, of the node with the number N.
#[derive(Clone, Copy)]
pub struct PinName {
    pub node: u8,
    pub port: u8,
}

/// A wire's line: what the port of the first pin drives, the second pin shows the delay later, 1 to 1,000 slots.
#[derive(Clone, Copy)]
pub struct WireLine {
    pub a: PinName,
    pub b: PinName,
    pub delay: u32,
}

/// A bit's line: the node with this number sends what differs from its id at this bit first, 0 to 15, by one of these link
/// ends, one to eight of them, each 0 to 7. Contracts see it as a `BitRec` of `Rattle.system_model.specs.Bits`.
#[derive(Drop)]
pub struct BitLine {
    pub node: u8,
    pub bit: u8,
    pub ends: ArrayVec<u8, 8>,
}

impl Model for BitLine {
    ghost use Rattle.system_model.specs.Bits.{BitRec};

    ghost Value = { BitRec };

    ghost view = { λ line. record { node = line.node; bit = line.bit; ends = line.ends.items } };
}

/// What a section of a system text holds. See docs/SYSTEM_TEXT.md.
#[derive(Clone, Copy)]
pub enum SectionKind {
    /// The source of the node with this number, 0 to 99.
    Source(u8),
    /// The pin script.
    Pins,
    /// The schedule. Its lines are the frame's, which reads them as it goes.
    Play,
}

/// A line of the section `play`: a step of the schedule, with its node by number, 0 to 99. See docs/SYSTEM_TEXT.md.
#[derive(Clone, Copy)]
pub enum PlayLine {
    /// `take N:E`.
    Take(EndName),
    /// `run N COUNT`, of 1 to 1,000,000 slots, and `run N`, of 1.
    Run { node: u8, count: u32 },
    /// `send N:E`.
    Send(EndName),
}

/// A line of the frame of a system text, but for the first. See docs/SYSTEM_TEXT.md.
#[derive(Drop)]
pub enum FrameLine {
    /// `node N id ID`.
    Node(NodeLine),
    /// `link N:E M:F delay D gap G`, in edition 2 also with `net K` after it.
    Link(LinkLine),
    /// `bit N B E`, with up to seven more link ends.
    Bit(BitLine),
    /// `wire N:P M:Q delay D`, in edition 2 alone.
    Wire(WireLine),
    /// `source N`, `pins` or `play`: it begins a section.
    Section(SectionKind),
    /// A step, in the section `play`.
    Step(PlayLine),
}

/// A node as a system text gives it: the number of its line, counted from 1, and what that line says.
#[derive(Clone, Copy)]
pub struct GivenNode {
    pub line: u32,
    pub number: u8,
    pub id: u16,
}
