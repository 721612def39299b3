//! What a play of a schedule tells and writes: definitions alone. See docs/LOOKAHEAD.md and docs/OUTPUT.md.
#![tactic(auto)]
