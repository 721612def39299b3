//! How what a snapshot keeps of directed links and wires stands in bytes: a form for each, and its reader and writer. See docs/SNAPSHOTS.md.
#![tactic(auto)]

mod counts;
mod ends;
mod entry;
mod facts;
mod log;

pub use ends::{Ends, Held};
pub use facts::{logs_are_lawful, logs_have_facts};
pub use log::{read_link_log, read_wire_log, write_log};
