//! Takes turns of one or more workers by hand, and says of each case whether they come to what docs/LOOKAHEAD.md says. The links carry
//! nothing and have a delay of 5 slots. In all cases but the last the workers take their turns in this thread, so that it is known what
//! each of them has seen.
#![tactic(auto)]

mod gates;
mod pairs;
mod rows;
mod sleepers;
mod turns;
mod workers;

use anyhow::Result;
use pairs::{Case, holds_of_pair};
use rows::stops_in_row;
use sleepers::wakes;
use std::alloc::AllocError;

fn main(rt: HostRuntime) -> Result<()> {
    let alloc = rt.alloc();
    for (name, case) in [
        ("two nodes run ahead of each other", Case::Ahead),
        ("a node stops where its neighbour did", Case::Stop),
        ("each turn passes the gate", Case::Gate),
        ("a run ends with the last slot", Case::LastSlot),
    ] {
        tell(&rt, name, holds_of_pair(&rt, alloc, case))?;
    }
    let stops = stops_in_row(&rt, alloc);
    tell(&rt, "a run stops where its neighbour did", stops)?;
    let wakes = wakes(&rt, alloc);
    tell(&rt, "a node that sleeps wakes at news", wakes)?;
    Ok(())
}

// Tells whether a case holds.
fn tell<R: Print>(rt: &R, name: &str, holds: Result<bool, AllocError>) -> Result<()> {
    let answer = if holds? { "yes" } else { "no" };
    println!(rt; "{name}: {answer}")?;
    Ok(())
}
