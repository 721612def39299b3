//! What `explain` of `xs1_look` answers to a whole text: definitions. See docs/LOOK.md.
#![tactic(auto)]
