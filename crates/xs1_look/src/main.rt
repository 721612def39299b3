//! The program `xs1_look`: its words, standard input and standard output go to the one call `look`, and it ends with that
//! call's status. See docs/LOOK.md.
#![tactic(auto)]

use std::process::ExitCode;
use std::{env, io};
use xs_edge::{StdSink, StdSource};
use xs1_look_top::{Status, look};

fn main(rt: HostRuntime) -> ExitCode {
    let status = match words(&rt) {
        Ok(words) => {
            let mut source = StdSource::new(rt.stdin());
            let mut sink = StdSink::new(rt.stdout());
            look(rt.alloc(), &words, &mut source, &mut sink)
        }
        Err(_) => Status::Memory,
    };
    ExitCode::from(status.number())
}

// The words after the program's name. The error is want of memory. Words that are no text have no form, as no words
// have none.
fn words(rt: &HostRuntime) -> io::Result<Vec<String>> {
    match env::args(rt) {
        Ok(all) => Ok(all.skip(1).collect(rt.alloc())?),
        Err(error) if error.kind() == io::ErrorKind::OutOfMemory => Err(error),
        Err(_) => Ok(Vec::new(rt.alloc())),
    }
}
