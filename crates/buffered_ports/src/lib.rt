//! A core's 29 ports: the edges of their clocks in a slot, and what rows do at one of them. See docs/PORTS.md.
#![tactic(auto)]

mod levels;
mod marks;
mod ports;
mod slot;
mod snapshot;
mod still;

pub use levels::high_of;
pub use ports::Ports;
pub use single_port::{Answer, Ask, Condition, PortState, Reply, Transfer};
pub use xs_model::{Clock, Edge, PinChange, Wait};
