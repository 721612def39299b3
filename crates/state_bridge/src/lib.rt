//! What may be so of a node has the form of its block: a state that a core gave may be written, and is read again. See docs/SNAPSHOTS.md.
#![tactic(auto)]

mod fits;
mod laws;

pub use fits::node_fits;
pub use laws::{nodes_have_the_form, states_have_the_form};
