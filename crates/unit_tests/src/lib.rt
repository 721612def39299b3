//! Tests of the units by which a core does its rows, each by its public calls.
#![tactic(auto)]

#[cfg(test)]
mod alu_unit_tests;
#[cfg(test)]
mod core_memory_tests;
#[cfg(test)]
mod event_unit_tests;
#[cfg(test)]
mod flow_unit_tests;
#[cfg(test)]
mod pin_wires_tests;
#[cfg(test)]
mod sync_locks_tests;
#[cfg(test)]
mod thread_slots_tests;
#[cfg(test)]
mod timers_clocks_tests;
#[cfg(test)]
mod trap_unit_tests;
