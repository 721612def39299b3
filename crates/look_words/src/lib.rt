//! Pieces of text that forms of `xs1_look` share: where a thread is, what threads and resources are called, and the last lines. See docs/LOOK.md.
#![tactic(auto)]

mod last_lines;
mod names;
mod place;

pub use last_lines::{append_end, append_more};
pub use names::{
    append_chan_name, append_lock_name, append_sync_name, append_thread_name, append_timer_name,
};
pub use place::append_place;
