//! Loads: system texts that are made from a number, from a ring of 2 nodes to a ring of 16, and what they come to. Definitions
//! alone. See docs/LOADS.md.
#![tactic(auto)]
