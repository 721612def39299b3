//! A trial: what the program is given, and what it is to answer.

use std::alloc::{AllocError, Global};
use std::sync::Wait;
use std::thread::Threads;
use xs_edge::{ListSink, ListSource, OpenGate};
use xs1_top::{Status, top};

/// The text of no trial is longer, in bytes.
const LONGEST_TEXT: usize = 8_388_608;

/// What the program is given, and what it is to answer.
#[derive(Drop)]
pub struct Trial {
    /// The program's words, with blanks between them.
    pub words: &'static str,
    /// The system text.
    pub input: String,
    /// How the program is to end.
    pub status: Status,
    /// The text that it is to write.
    pub text: String,
}

impl Trial {
    /// Whether the program ends and writes so. `AllocError` comes where memory runs out.
    pub fn is_as_expected<R: Threads + Wait + Sync>(
        &self,
        rt: &R,
        alloc: Global,
    ) -> Result<bool, AllocError> {
        let mut words = Vec::new(alloc);
        for word in self.words.split_whitespace() {
            words.push(word.to_string(alloc)?)?;
        }
        let mut source = ListSource::new(self.input.as_bytes().to_vec(alloc)?);
        let mut sink = ListSink::with_room(alloc, LONGEST_TEXT)?;
        let status = top(rt, alloc, &words, &mut source, &mut sink, &OpenGate);
        Ok(status == self.status && sink.bytes() == self.text.as_bytes())
    }
}
