/// The clock by whose edges a port goes. See docs/TIME.md.
#[derive(Clone, Copy)]
pub enum Clock {
    /// The reference clock.
    Reference,
    /// The clock block with this number, 0 to 5.
    Block(u8),
}

/// What a clock does in a slot. See docs/TIME.md and docs/PORTS.md.
#[derive(Clone, Copy)]
pub enum Edge {
    /// It has no edge.
    None,
    /// It rises: ports in direction input sample.
    Rise,
    /// It falls: counters rise, and ports in direction output go on.
    Fall,
}
