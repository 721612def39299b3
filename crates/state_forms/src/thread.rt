//! Threads as bytes.
ghost use Rattle.std.specs.Prelude.{ℕ, ◌≡◌, ◌++◌, length, OnOk};
ghost use Rattle.std.specs.List.{zip};
ghost use Rattle.xs_base.specs.Numbers.{Slot};
ghost use Rattle.xs_model.specs.declared.status.Status.{Status};
ghost use Rattle.xs_model.specs.declared.thread.Thread.{Thread};
ghost use Rattle.xs_model.specs.declared.thread.Run.{Run};
ghost use Rattle.byte_forms.specs.Forms.{word, repeat};
ghost use Rattle.byte_forms.specs.Reading.{Gives};
ghost use Rattle.state_forms.specs.Threads.{status_word, wait_kinds, wait_numbers, is_wait_count, wait_of, run_of, run_fields, run, thread_state, thread};

use crate::field::{Field, read_places, write_each};
use byte_forms::{Fault, Reader, write_byte, write_option_word, write_word};
use std::alloc::AllocError;
use xs_base::Text;
use xs_base::numbers::{CHAN_ENDS, LOCKS, PORTS, SYNCHRONISERS, TIMERS};
use xs_model::{Run, STATUS_BITS, Status, Thread, Wait};

// ---- Registers

impl Field for u32 {
    ghost Value = { ℕ };

    ghost view = { λ n. n };

    ghost form = { word };

    fn read(from: &mut Reader) -> Result<u32, Fault> {
        from.read_word()
    }

    fn write(&self, out: &mut Text) -> Result<(), AllocError> {
        write_word(out, *self)
    }
}

impl Field for Status {
    ghost Value = { Status };

    ghost view = { λ sr. sr };

    ghost form = { status_word };

    #[tactic(auto, unfolding(crate::specs::Threads::status_word))]
    fn read(from: &mut Reader) -> Result<Status, Fault> {
        let left = from.left();
        let w = from.read_word()?;
        let bits = w & u32::from(STATUS_BITS);
        if bits == w {
            Ok(Status { bits: bits as u8 })
        } else {
            Err(Fault::Wrong(left))
        }
    }

    #[tactic(auto, unfolding(crate::specs::Threads::status_word))]
    fn write(&self, out: &mut Text) -> Result<(), AllocError> {
        write_word(out, u32::from(self.bits))
    }
}

// ---- What a thread does

impl Field for Run {
    ghost Value = { Run };

    ghost view = { λ run. run };

    ghost form = { run };

    #[tactic(auto, unfolding(crate::specs::Threads::run))]
    fn read(from: &mut Reader) -> Result<Run, Fault> {
        let tag = from.read_byte_below(6)?;
        let kind = from.read_byte_below(wait_kinds(tag))?;
        let number = from.read_byte_below(wait_numbers(tag, kind))?;
        let left = from.left();
        let count = from.read_byte()?;
        if is_wait_count(tag, kind, count) {
            Ok(run_of(tag, kind, number, count))
        } else {
            Err(Fault::Wrong(left))
        }
    }

    #[tactic(auto, unfolding(crate::specs::Threads::run))]
    fn write(&self, out: &mut Text) -> Result<(), AllocError> {
        let (tag, kind, number, count) = run_fields(*self);
        write_byte(out, tag)?;
        write_byte(out, kind)?;
        write_byte(out, number)?;
        write_byte(out, count)
    }
}

// How many kinds of wait there are behind the tag of a run.
fn wait_kinds(tag: u8) -> u8
    ensures { result ≡ wait_kinds tag }
{
    if tag == 4 { 10 } else { 1 }
}

// How many things there are at which a wait of a kind, behind the tag of a run, may be.
fn wait_numbers(tag: u8, kind: u8) -> u8
    ensures { result ≡ wait_numbers tag kind }
{
    if tag != 4 {
        return 1;
    }
    match kind {
        0 | 1 => CHAN_ENDS,
        2..=4 => PORTS,
        5 => TIMERS,
        6 => LOCKS,
        7 => SYNCHRONISERS,
        _ => 1,
    }
}

// Whether a wait of a kind, behind the tag of a run, may have this count of tokens.
fn is_wait_count(tag: u8, kind: u8, count: u8) -> bool
    ensures { result ≡ is_wait_count tag kind count }
{
    if tag == 4 && kind < 2 {
        count == 1 || count == 4
    } else {
        count == 0
    }
}

// The wait of a kind.
fn wait_of(kind: u8, number: u8, count: u8) -> Wait
    ensures { result ≡ wait_of kind number count }
{
    match kind {
        0 => Wait::Room {
            chan: number,
            count,
        },
        1 => Wait::Tokens {
            chan: number,
            count,
        },
        2 => Wait::PortFull { port: number },
        3 => Wait::PortEmpty { port: number },
        4 => Wait::PortIdle { port: number },
        5 => Wait::Timer { timer: number },
        6 => Wait::Lock { lock: number },
        7 => Wait::Slaves { sync: number },
        8 => Wait::Choice,
        _ => Wait::Divider,
    }
}

// What a thread does, by its tag and its wait.
fn run_of(tag: u8, kind: u8, number: u8, count: u8) -> Run
    ensures { result ≡ run_of (tag, (kind, (number, count))) }
{
    match tag {
        0 => Run::Free,
        1 => Run::Unstarted,
        2 => Run::AtSync,
        3 => Run::Going,
        4 => Run::Paused(wait_of(kind, number, count)),
        _ => Run::Halted,
    }
}

// The tag of what a thread does, and the kind, the number and the count of its wait.
fn run_fields(run: Run) -> (u8, u8, u8, u8)
    ensures { (result.0, (result.1, (result.2, result.3))) ≡ run_fields run }
{
    match run {
        Run::Free => (0, 0, 0, 0),
        Run::Unstarted => (1, 0, 0, 0),
        Run::AtSync => (2, 0, 0, 0),
        Run::Going => (3, 0, 0, 0),
        Run::Paused(Wait::Room { chan, count }) => (4, 0, chan, count),
        Run::Paused(Wait::Tokens { chan, count }) => (4, 1, chan, count),
        Run::Paused(Wait::PortFull { port }) => (4, 2, port, 0),
        Run::Paused(Wait::PortEmpty { port }) => (4, 3, port, 0),
        Run::Paused(Wait::PortIdle { port }) => (4, 4, port, 0),
        Run::Paused(Wait::Timer { timer }) => (4, 5, timer, 0),
        Run::Paused(Wait::Lock { lock }) => (4, 6, lock, 0),
        Run::Paused(Wait::Slaves { sync }) => (4, 7, sync, 0),
        Run::Paused(Wait::Choice) => (4, 8, 0, 0),
        Run::Paused(Wait::Divider) => (4, 9, 0, 0),
        Run::Halted => (5, 0, 0, 0),
    }
}

// ---- Threads

impl Field for Thread {
    ghost Value = { Thread };

    ghost view = { λ th. th };

    ghost form = { thread_state };

    #[tactic(auto, unfolding(crate::specs::Threads::thread_state))]
    fn read(from: &mut Reader) -> Result<Thread, Fault> {
        let r = read_words::<12>(from)?;
        let pointers = read_words::<5>(from)?;
        let sr = Status::read(from)?;
        let spc = from.read_word()?;
        let ssr = Status::read(from)?;
        let traps = read_words::<5>(from)?;
        let run = Run::read(from)?;
        Ok(Thread {
            r,
            cp: pointers[0],
            dp: pointers[1],
            sp: pointers[2],
            lr: pointers[3],
            pc: pointers[4],
            sr,
            spc,
            ssr,
            et: traps[0],
            ed: traps[1],
            sed: traps[2],
            kep: traps[3],
            ksp: traps[4],
            run,
        })
    }

    #[tactic(auto, unfolding(crate::specs::Threads::thread_state))]
    fn write(&self, out: &mut Text) -> Result<(), AllocError> {
        write_words(out, &self.r)?;
        write_words(out, &[self.cp, self.dp, self.sp, self.lr, self.pc])?;
        self.sr.write(out)?;
        write_word(out, self.spc)?;
        self.ssr.write(out)?;
        write_words(out, &[self.et, self.ed, self.sed, self.kep, self.ksp])?;
        self.run.write(out)
    }
}

// Reads so many words.
fn read_words<const N: usize>(from: &mut Reader) -> Result<[u32; N], Fault>
    ensures value { Gives (repeat N word) (λ words. words) from.old result from.new }
{
    let mut words = [0; N];
    read_places(from, &mut words)?;
    Ok(words)
}

// Writes each of some words.
fn write_words(out: &mut Text, words: &[u32]) -> Result<(), AllocError>
    ensures value { OnOk result (out.new ≡ out.old ++ (repeat (length words.now) word).write words.now) }
{
    write_each(out, words)
}

/// Reads a thread and the slot of its last issue, which is to be below `slot`.
#[tactic(auto, unfolding(crate::specs::Threads::thread))]
pub fn read_thread(from: &mut Reader, slot: u32) -> Result<(Thread, Option<u32>), Fault>
    ensures value { Gives (thread slot) (λ v. v) from.old result from.new }
{
    let th = Thread::read(from)?;
    let last = from.read_option_word_below(u64::from(slot))?;
    Ok((th, last))
}

/// Writes a thread and the slot of its last issue. The error is want of memory.
#[tactic(auto, unfolding(crate::specs::Threads::thread))]
pub fn write_thread(out: &mut Text, th: &Thread, last: Option<u32>) -> Result<(), AllocError>
    ensures value { (slot : Slot) → OnOk result (out.new ≡ out.old ++ (thread slot).write (th.now, last)) }
{
    th.write(out)?;
    write_option_word(out, last)
}

/// Reads the threads of a core, and the slots of their last issues, which are to be below `slot`, into these places.
pub fn read_threads(
    from: &mut Reader,
    slot: u32,
    threads: &mut [Thread; 8],
    last: &mut [Option<u32>; 8],
) -> Result<(), Fault>
    ensures value { Gives (repeat 8 (thread slot)) (λ _. zip threads.new last.new) from.old result from.new }
    ensures long { length threads.new ≡ length last.new }
{
    for k in 0..8 {
        let (th, its_last) = read_thread(from, slot)?;
        threads[k] = th;
        last[k] = its_last;
    }
    Ok(())
}

/// Writes the threads of a core, and the slots of their last issues. The error is want of memory.
pub fn write_threads(
    out: &mut Text,
    threads: &[Thread; 8],
    last: &[Option<u32>; 8],
) -> Result<(), AllocError>
    ensures value { (slot : Slot) → OnOk result (out.new ≡ out.old ++ (repeat 8 (thread slot)).write (zip threads.now last.now)) }
{
    for k in 0..8 {
        write_thread(out, &threads[k], last[k])?;
    }
    Ok(())
}
