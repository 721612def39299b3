//! Workers, each of which runs one node of a system ahead of the others, and what the run has become in the end, whatever the way in which
//! its nodes were run. See docs/LOOKAHEAD.md.
#![tactic(auto)]

mod advance;
mod answer;
mod ended;
mod exchange;
mod finished;
mod gather;
mod hear;
mod lanes;
mod least;
mod tell;
mod turn;
mod way;
mod worker;

pub use ended::Ended;
pub use finished::Finished;
pub use finished_runs::FinishedRun;
pub use lanes::Lanes;
pub use node_runners::{NodeRunner, Ran};
pub use turn::Turn;
pub use way::Way;
pub use worker::{Part, Worker};
