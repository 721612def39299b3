//! Why a line of a frame or of a pin script is refused, told of the line: how far its words have a form, and what is meant. Definitions, and the
//! plain types that they speak of. See docs/LOOK.md.
#![tactic(auto)]

mod frame;

pub use frame::{Gift, Inside};

/// A pin as a line of a script names it: a node by its number, whether the system has it or not, and a port, 0 to 28. See
/// docs/LOOK.md.
#[derive(Clone, Copy)]
pub struct ScriptPin {
    pub node: u32,
    pub port: u8,
}

/// The slot and the pin of a line of a script. See docs/LOOK.md.
#[derive(Clone, Copy)]
pub struct SlotPin {
    pub slot: u32,
    pub pin: ScriptPin,
}

/// The slot of a line of a script, and the number that the line has in the whole text, from 1. See docs/LOOK.md.
#[derive(Clone, Copy)]
pub struct SlotLine {
    pub number: u32,
    pub slot: u32,
}
