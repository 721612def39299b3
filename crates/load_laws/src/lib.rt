//! Laws of loads: they hold for every number. See docs/LOADS.md.
#![tactic(auto)]

mod sources;
mod systems;

pub use sources::load_sources_are_accepted;
pub use systems::loads_are_accepted;
