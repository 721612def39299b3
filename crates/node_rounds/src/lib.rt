//! All nodes of a plan, run round by round: in a round all of them at once run as far as they may by what the others had run after the
//! round before. See docs/LOOKAHEAD.md.
#![tactic(auto)]

mod parts;
mod run;
mod seat;
mod table;
mod work;

pub use run::RoundRun;
