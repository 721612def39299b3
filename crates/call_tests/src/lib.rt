//! Tests of the program's call and of the sources and sinks that it reads and writes: each file has those of the crate whose
//! name it bears, and one has those of snapshots. They show what no contract says, and what the cases of case_runs cannot try:
//! faults of the source and of the sink, the longest input, snapshots of nodes, and that workers run at the same time.
#![tactic(auto)]

#[cfg(test)]
mod snapshot_tests;
#[cfg(test)]
mod xs1_top_tests;
#[cfg(test)]
mod xs_edge_tests;
