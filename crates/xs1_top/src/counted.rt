//! How often the program's call reads, at a source that counts it.
ghost use Rattle.std.specs.Prelude.{◌+◌, ◌≤◌, map, string_bytes};
ghost use Rattle.answer_model.specs.Forms.{form_of_words};
ghost use Rattle.answer_model.specs.Top.{most_reads};
ghost use Rattle.snap_codec.specs.Snaps.{longest_snapshot};

use crate::top;
use answer_model::Status;
use program_calls::reads_are_counted;
use std::alloc::Global;
use std::sync::Wait;
use std::thread::Threads;
use xs_edge::{CountingSource, Gate, Sink};

/// The program's call over a source that counts its reads: it is read at most 4,194,305 times, and with `resume SLOTS` at most 8,388,609
/// times.
pub fn top_counted<R: Threads + Wait + Sync, K: Sink, G: Gate>(
    rt: &R,
    alloc: Global,
    words: &[String],
    source: &mut CountingSource,
    sink: &mut K,
    gate: &G,
) -> Status
    ensures by_form { source.new.reads ≤ source.old.reads + most_reads (form_of_words (map string_bytes words.now)) }
    ensures always { source.new.reads ≤ source.old.reads + (longest_snapshot + 1) }
{
    reads_are_counted();
    top(rt, alloc, words, source, sink, gate)
}
