//! How what a snapshot keeps of the ports of a node stands in bytes, and its reader and writer. See docs/SNAPSHOTS.md.
#![tactic(auto)]

mod port;
mod port_fields;
mod port_parts;

pub use port::{ports_are_lawful, read_port, read_ports, write_port, write_ports};
