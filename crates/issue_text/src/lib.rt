//! The text that `issues SLOTS FROM` and `watch SLOTS ADDRESS ..` of `xs1_look` write. See docs/LOOK.md.
#![tactic(auto)]

mod change;
mod endings;
mod issue_run;
mod line;
mod lines;
mod node_slot;
mod phrases;
mod registers;
mod sets;
mod sources;
mod stores;
mod watch_run;
mod words;

pub use issue_run::issues;
pub use watch_run::watch;
