//! The serial machine as a definition: what all nodes of a system, stepped together, have become after so many
//! slots. See docs/inside/DEFINITIONS.md.
#![tactic(auto)]
