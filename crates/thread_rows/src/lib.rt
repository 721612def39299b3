//! The rows on threads and synchronisers: what they leave of a core's units. See docs/THREADS.md.
#![tactic(auto)]

mod itself;
mod masters;
mod others;
mod rows;

pub use rows::on_threads;
