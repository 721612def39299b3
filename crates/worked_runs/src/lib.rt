//! Facts of whole systems that were worked out by hand, which the definitions give: directed links and wires, runs of two and three nodes,
//! a node that is stepped alone, schedules, rounds, route ranks, and the texts that are written of runs. Nothing stands on this crate.
#![tactic(auto)]

mod busy;
mod directions;
mod event_lines;
mod link_lines;
mod loads;
mod plays;
mod receiver;
mod rounds;
mod route_ranks;
mod schedules;
mod systems;
mod traces;
mod wire_runs;
mod wires;

pub use busy::worked_busy_slots;
pub use directions::worked_directions;
pub use event_lines::worked_event_lines;
pub use link_lines::worked_link_lines;
pub use loads::worked_loads;
pub use plays::worked_plays;
pub use receiver::worked_receiver;
pub use rounds::worked_rounds;
pub use route_ranks::worked_route_ranks;
pub use schedules::worked_schedules;
pub use systems::worked_systems;
pub use traces::worked_traces;
pub use wire_runs::worked_wire_runs;
pub use wires::worked_wires;
