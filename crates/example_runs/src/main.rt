//! Gives each example to the program's call, and says whether it wrote the text that stands beside it and ended with
//! its status. The timeline of two nodes is compared too, slot by slot, and so are the pictures of who issues, and the numbers of
//! slots that are stepped.
#![tactic(auto)]

mod node;
mod slots;
mod stepped;
mod timeline;

use anyhow::{Context, Result};
use slots::pictures_as;
use std::alloc::Global;
use std::rt::Files;
use std::sync::Wait;
use std::thread::Threads;
use std::{fs, io};
use stepped::steps_as;
use timeline::text_after;
use xs_edge::{ListSink, ListSource, OpenGate};
use xs1_top::{Status, top};

/// The text of no example is longer, in bytes.
const LONGEST_TEXT: usize = 65_536;

/// The timeline is compared after each number of slots up to this one.
const TIMELINE_SLOTS: u32 = 40;

fn main(rt: HostRuntime) -> Result<()> {
    for name in names(&rt, ".args")? {
        tell(&rt, &name, is_as_expected(&rt, &name)?)?;
    }
    tell(&rt, "pair.timeline", timeline_is_as_expected(&rt)?)?;
    for name in names(&rt, ".slots")? {
        let pictures = format!(in rt.alloc(); "{name}.slots")?;
        tell(
            &rt,
            &pictures,
            slots_are_as_expected(&rt, &name, &pictures)?,
        )?;
    }
    for name in names(&rt, ".stepped")? {
        let counts = format!(in rt.alloc(); "{name}.stepped")?;
        let system = fs::read(&rt, format!(in rt.alloc(); "{name}.xs1")?)?;
        let wanted = fs::read_to_string(&rt, &counts)?;
        tell(&rt, &counts, steps_as(&rt, &system, &wanted)?)?;
    }
    Ok(())
}

fn tell(rt: &HostRuntime, name: &str, as_expected: bool) -> Result<()> {
    let verdict = if as_expected {
        "as expected"
    } else {
        "differs"
    };
    println!(rt; "{name}: {verdict}")?;
    Ok(())
}

// The names of the files with this ending, in order and without it: `.args` for the runs.
fn names(rt: &HostRuntime, ending: &str) -> Result<Vec<String>> {
    let mut names = Vec::new(rt.alloc());
    for entry in fs::read_dir(rt, ".")? {
        let entry = entry?;
        if let Some(name) = entry.file_name().strip_suffix(ending) {
            names.push(name.to_string(rt.alloc())?)?;
        }
    }
    names.sort()?;
    Ok(names)
}

// Whether the run ends and writes as it should.
fn is_as_expected<R: Threads + Wait + Sync + Files + AllocGlobal>(
    rt: &R,
    name: &str,
) -> Result<bool> {
    let line = fs::read_to_string(rt, format!(in rt.alloc(); "{name}.args")?)?;
    let expected = fs::read(rt, format!(in rt.alloc(); "{name}.txt")?)?;
    writes(rt, system_of(name), &line, &expected, status_of(rt, name)?)
}

// The example that a run is of: NAME of NAME.check.
fn system_of(name: &str) -> &str {
    match name.split_once('.') {
        Some((system, _)) => system,
        None => name,
    }
}

// The number that the example is to end with: that of its file, or 0 where it has none.
fn status_of<R: Files + AllocGlobal>(rt: &R, name: &str) -> Result<u8> {
    match fs::read_to_string(rt, format!(in rt.alloc(); "{name}.status")?) {
        Ok(number) => Ok(number.trim().parse()?),
        Err(error) if error.kind() == io::ErrorKind::NotFound => Ok(Status::Done.number()),
        Err(error) => Err(error.into()),
    }
}

// Whether the pair, after each number of slots, wrote what its timeline says.
fn timeline_is_as_expected<R: Threads + Wait + Sync + Files + AllocGlobal>(rt: &R) -> Result<bool> {
    let timeline = fs::read_to_string(rt, "pair.timeline")?;
    for slots in 0..=TIMELINE_SLOTS {
        let line = format!(in rt.alloc(); "run {slots}")?;
        let expected = text_after(rt.alloc(), &timeline, slots)?;
        let done = Status::Done.number();
        if !writes(rt, "pair", &line, expected.as_bytes(), done)? {
            return Ok(false);
        }
    }
    Ok(true)
}

// Whether the threads of a system issue in those slots in which the pictures of a file have it.
fn slots_are_as_expected(rt: &HostRuntime, name: &str, pictures: &str) -> Result<bool> {
    let system = fs::read(rt, format!(in rt.alloc(); "{name}.xs1")?)?;
    let expected = fs::read_to_string(rt, pictures)?;
    Ok(pictures_as(rt.alloc(), &system, &expected).context(name)? == expected)
}

// Whether the example, given to the program with the words of a line, ends with this number and writes this text.
fn writes<R: Threads + Wait + Sync + Files + AllocGlobal>(
    rt: &R,
    name: &str,
    line: &str,
    expected: &[u8],
    number: u8,
) -> Result<bool> {
    let words = words(rt.alloc(), line)?;
    let input = fs::read(rt, format!(in rt.alloc(); "{name}.xs1")?)?;
    let mut source = ListSource::new(input);
    let mut sink = ListSink::with_room(rt.alloc(), LONGEST_TEXT)?;
    let status = top(rt, rt.alloc(), &words, &mut source, &mut sink, &OpenGate);
    Ok(status.number() == number && sink.bytes() == expected)
}

// The words of a line.
fn words(alloc: Global, line: &str) -> Result<Vec<String>> {
    let mut words = Vec::new(alloc);
    for word in line.split_whitespace() {
        words.push(word.to_string(alloc)?)?;
    }
    Ok(words)
}
