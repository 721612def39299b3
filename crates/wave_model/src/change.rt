//! A change of a pin.

/// From a slot on a pin shows a value: at the end of that slot, and of those after it up to its next change.
#[derive(Clone, Copy, PartialEq, Eq, Debug)]
pub struct WaveChange {
    /// At most 1,000,000 in a wave text.
    pub slot: u32,
    /// The position of the node, from 0 on.
    pub node: u8,
    /// The port, 0 to 28.
    pub port: u8,
    /// Below 2^width of the port.
    pub value: u32,
}
