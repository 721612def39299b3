//! What the choice goes by, and what it gives.

/// Which resources are ready, bit n for number n. Bits past the last number say nothing.
#[derive(Clone, Copy)]
pub struct Ready {
    /// Channel ends 0 to 31: tokens wait in the input buffer.
    pub chans: u32,
    /// Timers 0 to 9: the condition holds.
    pub timers: u32,
    /// Ports 0 to 28: the direction is input, and the transfer register is full.
    pub ports: u32,
}

/// What a thread takes.
#[derive(Clone, Copy, PartialEq, Eq, Debug)]
pub struct Choice {
    /// An interrupt, from which the thread returns, or else an event.
    pub interrupt: bool,
    /// The address of the handler.
    pub vector: u32,
    /// What the handler finds in ed.
    pub env: u32,
}
