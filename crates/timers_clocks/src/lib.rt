//! A core's ten timers, its reference clock and its six clock blocks: functions of the slot. See docs/TIME.md.
#![tactic(auto)]

mod answers;
mod block;
mod clocks;
mod conditions;
mod falls;
mod state;
mod timer;
mod timers;

pub use answers::Bad;
pub use clocks::Clocks;
pub use state::{ClockState, TimerState};
pub use timers::Timers;
pub use xs_model::{Clock, Edge};
