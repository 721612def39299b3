//! A core's seven synchronisers and four locks: who got them, which threads are bound to them, and who owns them. See
//! docs/THREADS.md.
#![tactic(auto)]

mod answers;
mod lock;
mod state;
mod sync;
mod syncs;

pub use answers::{Bad, Claim};
pub use state::{LockState, SyncState};
pub use syncs::Syncs;
