//! What `states` of `xs1_look` writes: definitions. See docs/LOOK.md.
#![tactic(auto)]
