//! Calls with faults of the source and of the sink, with the longest input, with workers that run at the same time, and with
//! long runs by all drives.
use load_maker::make_system;
use std::alloc::{AllocError, Global};
use std::sync::Wait;
use std::sync::atomic::{AtomicBool, Ordering};
use std::test::Fail;
use std::thread::{Threads, yield_now};
use xs_edge::{
    CountingSource, DripSink, DripSource, FailingSink, FailingSource, Gate, ListSink, ListSource,
    OnceSink, OnceSource, OpenGate, Sink, Source,
};
use xs1_top::{Status, top, top_counted};

const SUM: &[u8] =
    b"xs1 1\nnode 0 id 0\nsource 0\nmain: ldc r0, 5\n  ldc r1, 7\n  add r2, r0, r1 // 12\n  stw r2, dp[0]\n  freet\nend\n";

const SUM_FOR_20: &[u8] = b"n0 mem 0x00010000 0x0000000c\nend 20\n";

// A system whose node has an empty source.
const EMPTY: &[u8] = b"xs1 1\nnode 0 id 0\nsource 0\nend\n";

// Two nodes, of which the first sends a token to the second.
pub(crate) const PAIR: &[u8] =
    b"xs1 1\nnode 0 id 0\nnode 1 id 1\nlink 0:0 1:0 delay 5 gap 4\nbit 0 0 0\nbit 1 0 0\nsource 0\n  getr r0, 2\n  ldw r1, dp[0]\n  setd res[r0], r1\n  outct res[r0], 1\n  freet\n  .data\n  .word 0x00010002\nend\nsource 1\n  getr r0, 2\n  chkct res[r0], 1\n  freet\nend\n";

pub(crate) const PAIR_FOR_40: &[u8] =
    b"30 n1 chan 0 ct 1\nlink 0:0>1:0 tokens 4 credits 0\nlink 1:0>0:0 tokens 0 credits 4\nn0 mem 0x00010000 0x00010002\nend 40\n";

const LONGEST: usize = 4_194_304;

// How often a worker that is held back looks for the other, at most.
const MOST_LOOKS: u32 = 100_000_000;

// A gate for two workers. It holds one back in its first pass until the other has come to the gate, or till it has looked so often
// that nobody comes any more.
#[derive(Drop)]
struct Meeting {
    // The number of the worker that is held back.
    held: u32,
    // Whether the worker that is held back has come to the gate.
    is_there: AtomicBool,
    // Whether the other has.
    other_is_there: AtomicBool,
    // Whether the one saw the other in its first pass.
    met: AtomicBool,
}

impl Meeting {
    fn of(held: u32) -> Meeting {
        Meeting {
            held,
            is_there: AtomicBool::new(false),
            other_is_there: AtomicBool::new(false),
            met: AtomicBool::new(false),
        }
    }

    // Looks for the other worker.
    fn look_for_other(&self) {
        for _ in 0..MOST_LOOKS {
            if self.other_is_there.load(Ordering::SeqCst) {
                self.met.store(true, Ordering::SeqCst);
                return;
            }
            yield_now();
        }
    }
}

impl Gate for Meeting {
    fn pass(&self, worker: u32) {
        if worker != self.held {
            self.other_is_there.store(true, Ordering::SeqCst);
        } else if !self.is_there.swap(true, Ordering::SeqCst) {
            self.look_for_other();
        }
    }
}

// One call with these words, with a source and a sink of the caller's.
pub(crate) fn call<R: Threads + Wait + Sync, S: Source, K: Sink>(
    rt: &R,
    alloc: Global,
    words: &[&str],
    source: &mut S,
    sink: &mut K,
) -> Result<Status, AllocError> {
    let words = owned(alloc, words)?;
    Ok(top(rt, alloc, &words, source, sink, &OpenGate))
}

// Whether a run of the pair in this mode writes what it should while this worker is held back, and meets the other.
fn meets<R: Threads + Wait + Sync>(
    rt: &R,
    alloc: Global,
    mode: &str,
    held: u32,
) -> Result<bool, AllocError> {
    let gate = Meeting::of(held);
    let words = owned(alloc, &["run", "40", mode])?;
    let mut source = ListSource::new(PAIR.to_vec(alloc)?);
    let mut sink = ListSink::with_room(alloc, 256)?;
    let ended = top(rt, alloc, &words, &mut source, &mut sink, &gate);
    let writes = ended == Status::Done && sink.bytes() == PAIR_FOR_40;
    Ok(writes && gate.met.load(Ordering::SeqCst))
}

fn owned(alloc: Global, words: &[&str]) -> Result<Vec<String>, AllocError> {
    let mut owned = Vec::new(alloc);
    for word in words {
        owned.push(String::from_str(alloc, word)?)?;
    }
    Ok(owned)
}

#[test]
fn writes_the_trace_of_a_run_that_waits_for_nobody(rt: HostRuntime) -> Result<(), Fail> {
    for mode in ["serial", "rounds"] {
        let mut source = ListSource::new(PAIR.to_vec(rt.alloc())?);
        let mut sink = ListSink::with_room(rt.alloc(), 256)?;
        let ended = call(
            &rt,
            rt.alloc(),
            &["run", "40", mode],
            &mut source,
            &mut sink,
        )?;
        assert!(rt; ended == Status::Done && sink.bytes() == PAIR_FOR_40);
    }
    Ok(())
}

#[test]
fn a_worker_comes_to_the_gate_while_the_other_is_held_back(rt: HostRuntime) -> Result<(), Fail> {
    assert!(rt; meets(&rt, rt.alloc(), "free", 0)? && meets(&rt, rt.alloc(), "free", 1)?);
    Ok(())
}

#[test]
fn a_node_comes_to_the_gate_while_the_other_is_held_back_in_a_round(
    rt: HostRuntime,
) -> Result<(), Fail> {
    assert!(rt; meets(&rt, rt.alloc(), "rounds", 0)? && meets(&rt, rt.alloc(), "rounds", 1)?);
    Ok(())
}

#[test]
fn writes_nothing_after_a_failed_read(rt: HostRuntime) -> Result<(), Fail> {
    let mut source = FailingSource::new(SUM.to_vec(rt.alloc())?, 30);
    let mut sink = ListSink::with_room(rt.alloc(), 256)?;
    let ended = call(&rt, rt.alloc(), &["run", "20"], &mut source, &mut sink)?;
    assert!(rt; ended == Status::ReadFault && sink.bytes().is_empty());
    Ok(())
}

#[test]
fn writes_a_front_before_a_failed_write(rt: HostRuntime) -> Result<(), Fail> {
    let mut source = ListSource::new(SUM.to_vec(rt.alloc())?);
    let mut sink = FailingSink::new(rt.alloc(), 3)?;
    let ended = call(&rt, rt.alloc(), &["run", "20"], &mut source, &mut sink)?;
    assert!(rt; ended == Status::WriteFault && sink.bytes() == b"n0 ".as_slice());
    Ok(())
}

#[test]
fn reads_and_writes_a_byte_at_a_time(rt: HostRuntime) -> Result<(), Fail> {
    for mode in ["free", "serial", "rounds"] {
        let mut source = DripSource::new(SUM.to_vec(rt.alloc())?);
        let mut sink = DripSink::with_room(rt.alloc(), 256)?;
        let ended = call(
            &rt,
            rt.alloc(),
            &["run", "20", mode],
            &mut source,
            &mut sink,
        )?;
        assert!(rt; ended == Status::Done && sink.bytes() == SUM_FOR_20);
    }
    Ok(())
}

// The first read, or the one that was to find the end of the input.
#[test]
fn a_read_that_failed_is_not_made_again(rt: HostRuntime) -> Result<(), Fail> {
    for (at, reads) in [(0, 1), (1, 2)] {
        let mut source = OnceSource::new(SUM.to_vec(rt.alloc())?, at);
        let mut sink = OnceSink::with_room(rt.alloc(), 256, u32::MAX)?;
        let ended = call(&rt, rt.alloc(), &["run", "20"], &mut source, &mut sink)?;
        assert!(rt; ended == Status::ReadFault && source.reads() == reads);
        assert!(rt; sink.puts() == 0 && sink.bytes().is_empty());
    }
    Ok(())
}

#[test]
fn a_write_that_failed_is_not_made_again(rt: HostRuntime) -> Result<(), Fail> {
    let mut source = ListSource::new(SUM.to_vec(rt.alloc())?);
    let mut sink = OnceSink::with_room(rt.alloc(), 256, 0)?;
    let ended = call(&rt, rt.alloc(), &["run", "20"], &mut source, &mut sink)?;
    assert!(rt; ended == Status::WriteFault && sink.puts() == 1 && sink.bytes().is_empty());
    Ok(())
}

#[test]
fn writes_nothing_wherever_a_read_fails(rt: HostRuntime) -> Result<(), Fail> {
    for after in 0..=PAIR.len() {
        let mut source = FailingSource::new(PAIR.to_vec(rt.alloc())?, after);
        let mut sink = ListSink::with_room(rt.alloc(), 256)?;
        let ended = call(&rt, rt.alloc(), &["run", "40"], &mut source, &mut sink)?;
        assert!(rt; ended == Status::ReadFault && sink.bytes().is_empty());
    }
    Ok(())
}

#[test]
fn writes_the_front_before_the_write_that_fails(rt: HostRuntime) -> Result<(), Fail> {
    for after in 0..PAIR_FOR_40.len() {
        let mut source = ListSource::new(PAIR.to_vec(rt.alloc())?);
        let mut sink = FailingSink::new(rt.alloc(), after)?;
        let ended = call(&rt, rt.alloc(), &["run", "40"], &mut source, &mut sink)?;
        assert!(rt; ended == Status::WriteFault && sink.bytes() == &PAIR_FOR_40[..after]);
    }
    Ok(())
}

// The empty node's system with so many blank lines before it and after it.
fn padded(alloc: Global, before: usize, after: usize) -> Result<Vec<u8>, AllocError> {
    let mut input = vec![in alloc; b'\n'; before]?;
    input.extend_from_slice(EMPTY)?;
    let end = vec![in alloc; b'\n'; after]?;
    input.extend_from_slice(&end)?;
    Ok(input)
}

#[test]
fn takes_the_longest_input_and_no_longer(rt: HostRuntime) -> Result<(), Fail> {
    let blank = LONGEST - EMPTY.len();
    let accepted = (Status::Done, b"end 0\n".as_slice());
    let refused = (
        Status::SystemFault,
        b"system line 0: S10 input too long\n".as_slice(),
    );
    for (before, after, (status, text)) in [
        (blank, 0, accepted),
        (0, blank, accepted),
        (blank + 1, 0, refused),
        (0, blank + 1, refused),
    ] {
        let mut source = ListSource::new(padded(rt.alloc(), before, after)?);
        let mut sink = ListSink::with_room(rt.alloc(), 256)?;
        let ended = call(&rt, rt.alloc(), &["run", "0"], &mut source, &mut sink)?;
        assert!(rt; ended == status && sink.bytes() == text);
    }
    Ok(())
}

// A comment without an end: its length is tested first, and then it is no first line.
#[test]
fn takes_the_longest_comment_and_no_longer(rt: HostRuntime) -> Result<(), Fail> {
    for (count, text) in [
        (
            LONGEST,
            b"system line 1: S1 first line is not xs1 1 or xs1 2\n".as_slice(),
        ),
        (
            LONGEST + 1,
            b"system line 0: S10 input too long\n".as_slice(),
        ),
    ] {
        let mut source = ListSource::new(vec![in rt.alloc(); b'#'; count]?);
        let mut sink = ListSink::with_room(rt.alloc(), 256)?;
        let ended = call(&rt, rt.alloc(), &["run", "20"], &mut source, &mut sink)?;
        assert!(rt; ended == Status::SystemFault && sink.bytes() == text);
    }
    Ok(())
}

// The input is one byte longer than what is taken of it.
#[test]
fn fails_where_a_read_fails_before_the_last_byte_that_is_taken(
    rt: HostRuntime,
) -> Result<(), Fail> {
    for (after, status) in [
        (LONGEST + 1, Status::SystemFault),
        (LONGEST, Status::ReadFault),
    ] {
        let mut source = FailingSource::new(
            padded(rt.alloc(), LONGEST + 2 - EMPTY.len(), 0)?,
            after,
        );
        let mut sink = ListSink::with_room(rt.alloc(), 256)?;
        let ended = call(&rt, rt.alloc(), &["run", "0"], &mut source, &mut sink)?;
        assert_eq!(rt; ended, status);
    }
    Ok(())
}

#[test]
fn reads_a_short_input_and_its_end(rt: HostRuntime) -> Result<(), Fail> {
    let mut source = CountingSource::new(SUM.to_vec(rt.alloc())?);
    let mut sink = ListSink::with_room(rt.alloc(), 256)?;
    let words = owned(rt.alloc(), &["run", "20"])?;
    let ended = top_counted(&rt, rt.alloc(), &words, &mut source, &mut sink, &OpenGate);
    assert!(rt; ended == Status::Done && source.reads() == 2);
    Ok(())
}

// Nothing is read, so it does no harm that no read succeeds.
#[test]
fn tells_what_a_load_comes_to(rt: HostRuntime) -> Result<(), Fail> {
    let mut source = FailingSource::new(Vec::new(rt.alloc()), 0);
    let mut sink = ListSink::with_room(rt.alloc(), 256)?;
    let ended = call(&rt, rt.alloc(), &["make", "1"], &mut source, &mut sink)?;
    assert!(rt;
        ended == Status::Done
            && sink.bytes() == b"made 1 nodes 3 tokens 4800 credits 4800 events 3000\n".as_slice()
    );
    Ok(())
}

// What is written for these words to the load of number 1.
fn run_of_load<R: Threads + Wait + Sync>(
    rt: &R,
    alloc: Global,
    words: &[&str],
) -> Result<ListSink, AllocError> {
    let load = make_system(alloc, 1)?;
    let mut source = ListSource::new(load.bytes().to_vec(alloc)?);
    let mut sink = ListSink::with_room(alloc, 131_072)?;
    let _ended = call(rt, alloc, words, &mut source, &mut sink)?;
    Ok(sink)
}

#[test]
fn a_load_writes_the_same_by_each_drive(rt: HostRuntime) -> Result<(), Fail> {
    let free = run_of_load(&rt, rt.alloc(), &["run", "60000"])?;
    let serial = run_of_load(&rt, rt.alloc(), &["run", "60000", "serial"])?;
    assert!(rt; serial.bytes().ends_with(b"end 60000\n") && free.bytes() == serial.bytes());
    // The least delay is 1, so there are as many rounds as slots.
    let rounds = run_of_load(&rt, rt.alloc(), &["run", "3000", "rounds"])?;
    let serial = run_of_load(&rt, rt.alloc(), &["run", "3000", "serial"])?;
    assert!(rt; serial.bytes().ends_with(b"end 3000\n") && rounds.bytes() == serial.bytes());
    Ok(())
}
