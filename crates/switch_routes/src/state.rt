//! `InputState`, what a snapshot keeps of an input of the switch.

/// What a snapshot keeps of an input of the switch: those of link ends 0 to 7 come first, then those of channel ends 0 to 31.
/// Destinations are identifiers of channel ends, whose low byte is 2. See docs/SNAPSHOTS.md.
#[derive(Clone, Copy)]
pub enum InputState {
    Idle,
    /// A link end's, after the high byte of a node's id.
    Head1 { first: u8 },
    /// A link end's, after the high and the low byte of a node's id.
    Head2 { first: u8, second: u8 },
    /// Its packet wants to go to a destination by a network, 0 to 3.
    Want { dest: u32, net: u8 },
    /// It holds a channel end of its node, 0 to 31.
    Local { chan: u8 },
    /// It holds a link end, 0 to 7, by which so many header bytes of the destination, 0 to 3, went out.
    Out { end: u8, count: u8, dest: u32 },
    /// Its packet is lost.
    Lost,
}
