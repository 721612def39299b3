//! Facts of lists that are made of another one, element by element: that they are its map. It has no code.
#![tactic(auto)]
