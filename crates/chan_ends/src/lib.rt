//! A core's 32 channel ends: their destinations, and the tokens that wait in their buffers. See docs/LINKS.md.
#![tactic(auto)]

mod answers;
mod chan_end;
mod ends;
mod marks;
mod state;

pub use answers::{Bad, Put, Take};
pub use ends::ChanEnds;
pub use state::ChanState;
pub use xs_base::Token;
