//! The program `xs1_load`: it writes the load of a number, a system text, to standard output. See docs/LOADS.md.
#![tactic(auto)]

mod status;
mod words;

use load_maker::make_system;
use status::Status;
use std::io::Write;
use std::process::ExitCode;
use std::{env, io};
use words::{number_of_words, usage_line};

fn main(rt: HostRuntime) -> ExitCode {
    let status = match own_words(&rt) {
        Ok(words) => answer(&rt, &words),
        Err(_) => Status::Memory,
    };
    ExitCode::from(status.number())
}

// The words after the program's name. The error is want of memory. Words that are no text are no number, as no words are
// none.
fn own_words(rt: &HostRuntime) -> io::Result<Vec<String>> {
    match env::args(rt) {
        Ok(all) => Ok(all.skip(1).collect(rt.alloc())?),
        Err(error) if error.kind() == io::ErrorKind::OutOfMemory => Err(error),
        Err(_) => Ok(Vec::new(rt.alloc())),
    }
}

// Writes the load of the number that the words are, or the usage line where they are none.
fn answer(rt: &HostRuntime, words: &[String]) -> Status {
    let Some(number) = number_of_words(words) else {
        return write(rt, usage_line(), Status::Usage);
    };
    match make_system(rt.alloc(), number) {
        Ok(text) => write(rt, text.bytes(), Status::Done),
        Err(_) => Status::Memory,
    }
}

// Writes a text whole. The program then ends with this status, or with that of a write that failed.
fn write(rt: &HostRuntime, text: &[u8], status: Status) -> Status {
    match rt.stdout().write_all(text) {
        Ok(()) => status,
        Err(_) => Status::WriteFault,
    }
}
