//! How a thread enters its handlers for traps, events and interrupts, and how it returns. See docs/MACHINE.md.
#![tactic(auto)]

ghost use Rattle.std.specs.Prelude.{◌≡◌};
ghost use Rattle.xs_model.specs.Threads.{HasKnownBits};
ghost use Rattle.xs_model.specs.Entry.{return_address, handler_address, trapped, in_event, in_interrupt, returned};

use bitflags::Flags;
use core_state::{Status, Thread};
use xs_model::traps::KERNEL_CALL;
use xs_model::{EEBLE, IEBLE, INENB, ININT, INK, WAITING};

// The status bits that a trap, an event and an interrupt clear.
const CLEARED_IN_A_TRAP: Status = Status {
    bits: EEBLE | IEBLE | WAITING,
};

const CLEARED_IN_AN_EVENT: Status = Status {
    bits: EEBLE | INENB | WAITING,
};

const CLEARED_IN_AN_INTERRUPT: Status = Status {
    bits: EEBLE | IEBLE | INENB | WAITING,
};

/// The pc to which a trap with the number `et` returns: the instruction that trapped, or the next one where that is a
/// kernel call. See docs/MACHINE.md.
pub fn return_address(thread: &Thread, et: u32) -> u32
    ensures value { result ≡ return_address et thread.now }
{
    if et == KERNEL_CALL {
        thread.pc.wrapping_add(4)
    } else {
        thread.pc
    }
}

// Where the handler of a trap with this number stands.
fn handler_address(thread: &Thread, et: u32) -> u32
    ensures value { result ≡ handler_address et thread.now }
{
    if et == KERNEL_CALL {
        thread.kep.wrapping_add(64)
    } else {
        thread.kep
    }
}

// Keeps the status and the data to which the thread will return, at `next`.
fn keep_place(thread: &mut Thread, next: u32)
    ensures value { thread.new ≡ record thread.old { spc = next; ssr = thread.old.sr; sed = thread.old.ed } }
{
    thread.spc = next;
    thread.ssr = thread.sr;
    thread.sed = thread.ed;
}

/// Enters the handler of a trap with the number `et` and the data `ed`, from which the thread returns to `next`. That
/// no code may stand there is up to the caller. See docs/MACHINE.md.
pub fn enter_trap(thread: &mut Thread, et: u32, ed: u32, next: u32)
    ensures value { thread.new ≡ trapped thread.old et ed next }
    ensures known { HasKnownBits thread.old → HasKnownBits thread.new }
{
    keep_place(thread, next);
    thread.pc = handler_address(thread, et);
    thread.et = et;
    thread.ed = ed;
    thread.sr.remove(CLEARED_IN_A_TRAP);
    thread.sr.insert(Status { bits: INK });
}

/// Enters the handler of an event, of a resource with this vector and environment. The thread cannot return. See
/// docs/MACHINE.md.
pub fn enter_event(thread: &mut Thread, vector: u32, environment: u32)
    ensures value { thread.new ≡ in_event thread.old vector environment }
    ensures known { HasKnownBits thread.old → HasKnownBits thread.new }
{
    thread.pc = vector;
    thread.ed = environment;
    thread.sr.remove(CLEARED_IN_AN_EVENT);
}

/// Enters the handler of an interrupt, of a resource with this vector and environment, from which the thread returns to
/// where it is. See docs/MACHINE.md.
pub fn enter_interrupt(thread: &mut Thread, vector: u32, environment: u32)
    ensures value { thread.new ≡ in_interrupt thread.old vector environment }
    ensures known { HasKnownBits thread.old → HasKnownBits thread.new }
{
    let place = thread.pc;
    keep_place(thread, place);
    thread.pc = vector;
    thread.ed = environment;
    thread.sr.remove(CLEARED_IN_AN_INTERRUPT);
    thread.sr.insert(Status { bits: ININT });
}

/// Returns from a trap or an interrupt: pc, sr and ed are as they were there. See docs/MACHINE.md.
pub fn kret(thread: &mut Thread)
    ensures value { thread.new ≡ returned thread.old }
    ensures known { HasKnownBits thread.old → HasKnownBits thread.new }
{
    thread.pc = thread.spc;
    thread.sr = thread.ssr;
    thread.ed = thread.sed;
}
