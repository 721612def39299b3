//! The lines of the trace that tell of events, and what its other lines and those of a play are put together from. See
//! docs/OUTPUT.md.
#![tactic(auto)]

mod lines;
mod numerals;
mod traffic;

pub use lines::{append_port_name, line_of};
pub use numerals::append_hex_word;
pub use traffic::{append_link_end, append_pin, append_token};
