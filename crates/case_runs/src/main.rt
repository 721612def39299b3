//! Gives each case of the files in data/ to the program's call, and says which of them it answers otherwise than the case
//! says and how many it answers so. A case of `run SLOTS` is tried with `serial` and with `rounds` too. The texts that the cases
//! expect were written by hand, from docs/ASSEMBLY.md, docs/SYSTEM_TEXT.md, docs/INSTRUCTIONS.md, docs/OUTPUT.md, docs/ROUTES.md and docs/WAVES.md. Sources
//! and systems that reach the limits of a memory or of the whole input are too long for a file: text_tests and call_tests try
//! those.
#![tactic(auto)]

mod case;

use anyhow::{Context, Result};
use case::Case;
use std::fs;
use std::rt::Files;
use std::sync::Wait;
use std::thread::Threads;
use xs_edge::{ListSink, ListSource, OpenGate};
use xs1_top::top;

/// The text of no case is longer, in bytes.
const LONGEST_TEXT: usize = 65_536;

fn main(rt: HostRuntime) -> Result<()> {
    let mut tried = Tried {
        cases: 0,
        agreed: 0,
    };
    for file in files_of_cases(&rt)? {
        tried.try_file(&rt, &file)?;
    }
    println!(rt; "{} of {} cases agree", tried.agreed, tried.cases)?;
    Ok(())
}

// The files that end in .jsonl, in the order of their names.
fn files_of_cases(rt: &HostRuntime) -> Result<Vec<String>> {
    let mut files = Vec::new(rt.alloc());
    for entry in fs::read_dir(rt, ".")? {
        let entry = entry?;
        let name = entry.file_name();
        if name.ends_with(".jsonl") {
            files.push(name.to_string(rt.alloc())?)?;
        }
    }
    files.sort()?;
    Ok(files)
}

// How many cases were tried so far, and how many of them were answered as they say.
#[derive(Drop)]
struct Tried {
    cases: u32,
    agreed: u32,
}

impl Tried {
    // Tries the cases of a file, one a line, and tells those that were answered otherwise.
    fn try_file<R: Threads + Wait + Sync + Files + Print + AllocGlobal>(
        &mut self,
        rt: &R,
        file: &str,
    ) -> Result<()> {
        for line in fs::read_to_string(rt, file)?.lines() {
            let case = Case::read(rt.alloc(), line).context("a line of the cases is no case")?;
            self.cases = self.cases.saturating_add(1);
            if agrees(rt, &case)? {
                self.agreed = self.agreed.saturating_add(1);
            } else {
                println!(rt; "{} differs: {}", case.name, case.why)?;
            }
        }
        Ok(())
    }
}

// Whether the program answers the case as it says: a case that runs its system in threads is tried by the serial machine and by rounds too.
fn agrees<R: Threads + Wait + Sync + AllocGlobal>(rt: &R, case: &Case) -> Result<bool> {
    let mut all = answers_to(rt, case, &case.words)?;
    if let [command, slots] = case.words.as_slice() {
        if command.as_str() == "run" {
            for mode in ["serial", "rounds"] {
                let mut words = Vec::new(rt.alloc());
                words.push(command.clone()?)?;
                words.push(slots.clone()?)?;
                words.push(mode.to_string(rt.alloc())?)?;
                all = answers_to(rt, case, &words)? && all;
            }
        }
    }
    Ok(all)
}

// Whether the program, given these words and the input of the case, ends with its status and writes its text.
fn answers_to<R: Threads + Wait + Sync + AllocGlobal>(
    rt: &R,
    case: &Case,
    words: &[String],
) -> Result<bool> {
    let mut source = ListSource::new(case.input_bytes(rt.alloc())?);
    let mut sink = ListSink::with_room(rt.alloc(), LONGEST_TEXT)?;
    let status = top(rt, rt.alloc(), words, &mut source, &mut sink, &OpenGate);
    Ok(status.number() == case.status && case.has_text(sink.bytes()))
}
