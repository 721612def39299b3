//! The units of a core (threads, last issues, memory, channel ends, timers, clock blocks, synchronisers, locks, ports, what
//! gives events), and what all rows share: registers, what words name, refusals, and how an issue ends. See docs/MACHINE.md.
#![tactic(auto)]

mod ending;
mod holders;
mod named;
mod refused;
mod threads;
mod units;

pub use core_memory::{BadAddress, Ram};
pub use ending::Ending;
pub use holders::Holders;
pub use named::{chan_named, resource_named};
pub use refused::illegal;
pub use units::Units;
