//! What `issues` and `watch` of `xs1_look` write: definitions, and what of an issue is told. See docs/LOOK.md.
#![tactic(auto)]

use xs_model::Wait;

/// The registers of a thread by their numbers, in the order in which they are told: r0 to r11, cp, dp, sp and lr as instructions name them, then
/// spc, ssr, sed, et, ed, kep, ksp and sr.
pub const REGISTERS: [u8; 24] = [
    0, 1, 2, 3, 4, 5, 6, 7, 8, 9, 10, 11, 12, 13, 14, 15, 16, 17, 18, 19, 20, 21, 22, 23,
];

/// How many issues, or stores to words that are watched, have lines.
pub const MOST_LINES: u64 = 262_144;

/// How an issue ended. See docs/LOOK.md.
#[derive(Clone, Copy)]
pub enum Ending {
    /// The thread took an event, or an interrupt, and the instruction was not executed.
    Took { interrupt: bool },
    /// It trapped.
    Trapped,
    /// It waits.
    Paused(Wait),
    /// The instruction was done, and the thread is free.
    Ended,
    /// The instruction was done.
    Done,
}

/// How many bytes a store writes.
#[derive(Clone, Copy)]
pub enum Size {
    Byte,
    Half,
    Word,
}

/// What an instruction stores: the low bytes of a value, at an address.
#[derive(Clone, Copy)]
pub struct Store {
    pub size: Size,
    pub at: u32,
    pub value: u32,
}
