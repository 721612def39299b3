//! One port: what it keeps, what the edges of its clock do, and what rows do at it. See docs/PORTS.md.
#![tactic(auto)]

mod answers;
mod edges;
mod input;
mod output;
mod port;
mod rows;
mod sampling;
mod settings;
mod snapshot;
mod state;
mod still;
mod transfer;

pub use answers::{Answer, Ask, Reply};
pub use edges::Fallen;
pub use port::Port;
pub use state::{Condition, PortState, Transfer};
pub use xs_model::{Clock, PinChange, Wait};
