/// What the lines of a system text are read as. See docs/SYSTEM_TEXT.md.
#[derive(Clone, Copy)]
pub enum Inside {
    /// Outside of the sections: lines of the frame.
    Frame,
    /// In a source or in the pin script: lines of their own.
    Text,
    /// In the section `play`: steps.
    Schedule,
}

/// What a line of the frame may give, by the values of its words. See docs/LOOK.md.
#[derive(Clone, Copy)]
pub enum Gift {
    /// A node with this number.
    Node(u32),
    /// A node with this id.
    Id(u32),
    /// A link at an end of a node: the node, and the end.
    LinkEnd(u32, u32),
    /// The line of a bit of a node: the node, and the bit.
    Bit(u32, u32),
    /// The source of the node with this number.
    Source(u32),
    /// The pin script.
    Pins,
    /// The schedule.
    Play,
    /// A wire that leaves this node.
    WireFrom(u32),
    /// A wire that comes to this node.
    WireTo(u32),
    /// A wire that comes to a pin: the node, and the port, 0 to 28.
    Pin(u32, u8),
}
