//! From where to where each arc of a plan leads. See docs/LINKS.md and docs/WIRES.md.
#![tactic(auto)]

mod route;

pub use route::{Route, route_of};
