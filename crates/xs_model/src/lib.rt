//! The machine's plain types, and the definitions that contracts cite: words, memory, threads, the node record,
//! which thread is picked, and how a trap is entered. See docs/MACHINE.md.
#![tactic(auto)]

mod clock;
mod dest;
mod event;
pub mod modes;
mod outside;
mod pins;
mod resource;
mod status;
mod thread;
pub mod traps;

pub use clock::{Clock, Edge};
pub use dest::Dest;
pub use event::{Event, Happen};
pub use outside::{Arrivals, PinView};
pub use pins::PinChange;
pub use resource::{Res, Resource};
pub use status::{EEBLE, FAST, IEBLE, INENB, ININT, INK, SETTABLE, STATUS_BITS, Status, WAITING};
pub use thread::{DIVISION_SLOTS, Entry0, Outcome, Run, Thing, Thread, Wait};
pub use xs_base::Token;
