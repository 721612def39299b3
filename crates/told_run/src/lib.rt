//! A serial run of which slots are told: what each node is before a slot and after it, and what its threads did in it. See docs/LOOK.md.
#![tactic(auto)]

mod before;
mod run;
mod tell;

pub use before::Before;
pub use core_step::{Core, Told};
pub use run::ToldRun;
