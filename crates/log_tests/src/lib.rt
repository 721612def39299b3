//! Tests of what nodes that run ahead of one another are told of arcs: the numbers of a schedule, logs, and the cells that hand them on.
#![tactic(auto)]

#[cfg(test)]
mod ahead_limits_tests;
#[cfg(test)]
mod header_bytes;
#[cfg(test)]
mod link_logs_tests;
#[cfg(test)]
mod log_cells_tests;
#[cfg(test)]
mod plan_cells_tests;
