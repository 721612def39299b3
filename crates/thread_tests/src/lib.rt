//! Tests of what runs nodes ahead of one another, by rounds, in schedules and in threads, each by its public calls.
#![tactic(auto)]

#[cfg(test)]
mod node_rounds_tests;
#[cfg(test)]
mod node_runners_tests;
#[cfg(test)]
mod run_drive_tests;
#[cfg(test)]
mod worker_threads_tests;
