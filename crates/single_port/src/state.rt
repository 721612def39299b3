//! What a snapshot keeps of a port.
use xs_model::Clock;

/// What a port's condition compares with its value. See docs/SNAPSHOTS.md.
#[derive(Clone, Copy)]
pub enum Condition {
    /// There is no condition.
    None,
    /// The pins show the value.
    Equal,
    /// The pins show another one.
    NotEqual,
}

/// What a port's transfer register holds: a value of so many bits, a multiple of the port's width up to its transfer width and
/// not 0, and the time that it waits for, if it does. See docs/SNAPSHOTS.md.
#[derive(Clone, Copy)]
pub struct Transfer {
    pub value: u32,
    pub bits: u8,
    pub time: Option<u16>,
}

/// What a snapshot keeps of a port. One that is off has 0, or nothing, in all its fields. See docs/SNAPSHOTS.md.
#[derive(Clone, Copy)]
pub struct PortState {
    /// Whether it is on.
    pub on: bool,
    /// Whether its direction is output.
    pub output: bool,
    /// The clock by whose edges it goes.
    pub clock: Clock,
    /// How often that clock has fallen, up to 65,535, and then from 0 again.
    pub counter: u16,
    /// Whether it has buffers.
    pub buffers: bool,
    /// How many bits a transfer has: 1, 4, 8, 16 or 32, and a multiple of the port's width; the width where it has no buffers.
    pub tw: u32,
    /// How many bits are wanted of a transfer that comes in: a multiple of the width, up to `tw`.
    pub want: u32,
    /// The value of its condition, below 2^width.
    pub value: u32,
    /// Its condition.
    pub condition: Condition,
    /// The time of its next transfer, if there is one.
    pub time: Option<u16>,
    /// The bits of its shift register as a number: in direction output the first to leave is the lowest, and in direction input
    /// the last that came in is the highest of `tw` bits. All others are 0.
    pub sr: u32,
    /// How many bits its shift register has: a multiple of the width, up to `tw`.
    pub count: u8,
    /// What its transfer register holds, if it is full.
    pub tr: Option<Transfer>,
    /// Whether the transfer register keeps what it has until a thread takes it.
    pub held: bool,
    /// The counter at its last sample.
    pub sample_stamp: u16,
    /// The counter at its last transfer.
    pub stamp: u16,
    /// The port that is its strobe, if it has one: another port of one pin, 0 to 15.
    pub strobe: Option<u8>,
    /// What it drives, below 2^width, if it does: also in direction input.
    pub driven: Option<u32>,
}
