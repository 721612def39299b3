//! Which events and interrupts the threads of a core enabled, and which one a thread takes. See docs/EVENTS.md.
#![tactic(auto)]

mod answers;
mod enabling;
mod events;
mod group;
mod marks;
mod state;

pub use answers::{Choice, Ready};
pub use events::Events;
pub use state::EnableState;
pub use xs_model::Res;
