//! The rows on resources (channel ends, timers, clock blocks, locks, ports, and the events of threads): what they leave of a
//! core's units. See docs/INSTRUCTIONS.md.
#![tactic(auto)]

mod actions;
mod chans;
mod events;
mod locks;
mod modes;
mod port_ends;
mod ports;
mod resources;
mod times;

pub use resources::on_resources;
