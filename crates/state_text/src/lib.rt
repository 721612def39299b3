//! The text that `states SLOTS` of `xs1_look` writes. See docs/LOOK.md.
#![tactic(auto)]

mod circle;
mod enabled;
mod network;
mod node;
mod phrases;
mod pieces;
mod ports;
mod resources;
mod runs;
mod seen;
mod wait_graph;
mod waits;
mod whole;

pub use whole::states;
