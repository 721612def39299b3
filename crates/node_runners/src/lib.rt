//! Nodes that run ahead of one another, each as far as what it has seen of its links and wires lets it. See docs/LOOKAHEAD.md.
#![tactic(auto)]

mod advance;
mod inlet;
mod inlets;
mod link_inlets;
mod outlet;
mod outlets;
mod runner;
mod starts;
mod wire_inlets;
mod wire_outlets;

pub use runner::{NodeRunner, Ran};
