//! Logs of what directed links and wires carry, with an end that writes and an end that reads. A log has the entries of its
//! link or wire, and no others. See docs/LOOKAHEAD.md.
#![tactic(auto)]

mod answers;
mod log;
mod story;

pub use answers::{Cause, Got};
pub use log::{Log, ReadEnd, WriteEnd, make_log};
pub use story::Story;
