//! What each instruction does, and one slot of a node: definitions alone. See docs/inside/DEFINITIONS.md.
#![tactic(auto)]
