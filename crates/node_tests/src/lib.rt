//! Tests of the ports, the channel ends and the link ends of a node, of its switch and of its core, each by its public calls.
#![tactic(auto)]

#[cfg(test)]
mod buffered_ports_tests;
#[cfg(test)]
mod chan_ends_tests;
#[cfg(test)]
mod core_step_tests;
#[cfg(test)]
mod link_ends_tests;
#[cfg(test)]
mod port_shift_tests;
#[cfg(test)]
mod single_port_tests;
#[cfg(test)]
mod switch_routes_tests;
