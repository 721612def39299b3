//! Runs and texts that are long: many slots, many events, many steps and large sources, which the program makes by rule, and so what
//! is to be written. Each is given to the program's call, and the answer compared. What the rules make was worked out by hand,
//! from docs/MACHINE.md, docs/LINKS.md, docs/LOOKAHEAD.md, docs/ASSEMBLY.md, docs/WAVES.md and docs/OUTPUT.md.
#![tactic(auto)]

mod big_source;
mod counter;
mod labels;
mod schedule;
mod script;
mod stream;
mod trial;
mod wave;

use anyhow::Result;
use std::alloc::AllocError;
use std::sync::Wait;
use std::thread::Threads;
use trial::Trial;

fn main(rt: HostRuntime) -> Result<()> {
    let alloc = rt.alloc();
    tell(&rt, "two nodes over 100,000 slots", stream::trial(alloc))?;
    tell(&rt, "a schedule of 12,000 steps", schedule::trial(alloc))?;
    tell(&rt, "one node over 1,000,000 slots", counter::trial(alloc))?;
    tell(
        &rt,
        "one node over 16,000,000 slots",
        counter::longest(alloc),
    )?;
    tell(&rt, "check of a big source", big_source::check(alloc))?;
    tell(&rt, "run of a big source", big_source::run(alloc))?;
    tell(
        &rt,
        "a fault in the last line of a big source",
        big_source::fault(alloc),
    )?;
    tell(&rt, "a pin script of 300,000 lines", script::trial(alloc))?;
    tell(&rt, "a source of 430,000 labels", labels::trial(alloc))?;
    tell(&rt, "a wave of 1,000,000 slots", wave::written(alloc))?;
    tell(&rt, "a wave that is too long", wave::too_long(alloc))?;
    tell(
        &rt,
        "a script of 90,029 lines from a wave",
        wave::read(alloc),
    )?;
    Ok(())
}

// Tells whether the program answers as the trial says.
fn tell<R: Threads + Wait + Sync + Print + AllocGlobal>(
    rt: &R,
    name: &str,
    trial: Result<Trial, AllocError>,
) -> Result<()> {
    let verdict = if trial?.is_as_expected(rt, rt.alloc())? {
        "as expected"
    } else {
        "differs"
    };
    println!(rt; "{name}: {verdict}")?;
    Ok(())
}
