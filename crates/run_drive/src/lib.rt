//! How a plan is run or played to its end. See docs/LOOKAHEAD.md and docs/OUTPUT.md.
#![tactic(auto)]

mod error;
mod free;
mod play;
mod played;
mod rounds;
mod serial;
mod stage;

pub use error::DriveError;
pub use free::drive_free;
pub use play::drive_play;
pub use played::{PlayLine, Played};
pub use rounds::drive_rounds;
pub use serial::drive_serial;
