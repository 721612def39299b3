//! Which threads of a core may issue, and at what threads wait. See docs/MACHINE.md and docs/EVENTS.md.
#![tactic(auto)]

mod able;
mod places;
mod slaves;

pub use able::{Able, ready, taken};
pub use places::{is_paused_on, is_waited_at};
pub use slaves::{all_in, drop_threads, is_in, set_runs};
