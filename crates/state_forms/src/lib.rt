//! How what a snapshot keeps of a node's threads and resources stands in bytes, but for its ports: a form for each plain type, and its reader and writer. See
//! docs/SNAPSHOTS.md.
#![tactic(auto)]

mod buffer;
mod chan;
mod enable;
mod field;
mod lock;
mod node_rest;
mod sync;
mod thread;
mod timer;
mod token;

pub use buffer::{read_buffer, write_buffer};
pub use chan::is_chan_id;
pub use field::{Field, read_elements, read_list, read_places, write_each};
pub use node_rest::{
    read_division, read_levels, read_memory, write_division, write_levels, write_memory,
};
pub use sync::{read_syncs, write_syncs};
pub use thread::{read_thread, read_threads, write_thread, write_threads};
