//! The rows on the kernel, other than the return.
ghost use Rattle.std.specs.Prelude.{◌≡◌, ℕ, ◌*◌, ◌/◌, IsTrue, List, bit_and};
ghost use Rattle.xs_model.specs.declared.status.TheConstants.{SETTABLE};
ghost use Rattle.xs_model.specs.Status.{status, with_bits, without_bits};
ghost use Rattle.xs_model.specs.Threads.{register};
ghost use Rattle.xs_instructions.specs.Instr.{KernelInRange};
ghost use Rattle.step_model.specs.Effect.{after_it};
ghost use Rattle.step_model.specs.KernelRows.{kernel_row, calls_where, enters_kernel, leaves_kernel, loads_from_stack, stores_to_stack};
ghost use Rattle.step_model.specs.Outcomes.{EndsAs};
ghost use Rattle.flow_unit.specs.Own.{own, is_no_return, with_saved};

use crate::access::{go_on, put_word, refused, set};
use crate::address::{down, up};
use bitflags::Flags;
use core_memory::Ram;
use core_state::{Outcome, Status, Thread};
use xs_instructions::KernelIns;
use xs_model::SETTABLE;
use xs_model::traps::{ECALL, KERNEL_CALL};

/// A register of traps that a row loads.
#[derive(Clone, Copy)]
pub(crate) enum Saved {
    /// spc
    Pc,
    /// ssr
    Status,
    /// sed
    Data,
    /// et
    Number,
}

/// Does a row on the kernel.
#[inline]
pub(crate) fn kernel(thread: &mut Thread, id: u8, ram: &mut Ram, ins: KernelIns) -> Outcome
    requires part { IsTrue (is_no_return ins) }
    requires range { KernelInRange ins }
    ensures row { EndsAs result (own thread.old ram.old) (own thread.new ram.new) (kernel_row id (own thread.old ram.old) ins) }
    ensures run { thread.new.run ≡ thread.old.run }
{
    match ins {
        KernelIns::KcallImm(u) => kernel_call(u32::from(u)),
        KernelIns::Kcall(s) => kernel_call(thread.reg(s)),
        KernelIns::Kentsp(u) => enter_kernel(u32::from(u), thread, ram),
        KernelIns::Krestsp(u) => leave_kernel(u32::from(u), thread, ram),
        KernelIns::Ecallt(s) => call_where(thread.reg(s) != 0, thread.reg(s), thread),
        KernelIns::Ecallf(s) => call_where(thread.reg(s) == 0, thread.reg(s), thread),
        KernelIns::SetKep => set_kep(thread),
        KernelIns::GetKep => set(11, thread.kep, thread),
        KernelIns::GetKsp => set(11, thread.ksp, thread),
        KernelIns::GetEd => set(11, thread.ed, thread),
        KernelIns::GetEt => set(11, thread.et, thread),
        KernelIns::GetId => set(11, u32::from(id), thread),
        KernelIns::Getsr(u) => set(11, u32::from(thread.sr.bits()) & u32::from(u), thread),
        KernelIns::LdwSpc => load_saved(1, Saved::Pc, thread, ram),
        KernelIns::LdwSsr => load_saved(2, Saved::Status, thread, ram),
        KernelIns::LdwSed => load_saved(3, Saved::Data, thread, ram),
        KernelIns::LdwEt => load_saved(4, Saved::Number, thread, ram),
        KernelIns::StwSpc => store_on_stack(1, thread.spc, thread, ram),
        KernelIns::StwSsr => store_on_stack(2, u32::from(thread.ssr.bits()), thread, ram),
        KernelIns::StwSed => store_on_stack(3, thread.sed, thread, ram),
        KernelIns::StwEt => store_on_stack(4, thread.et, thread, ram),
        KernelIns::Setsr(u) => set_status(u, thread),
        KernelIns::Clrsr(u) => clear_status(u, thread),
        KernelIns::Kret => unreachable!(),
    }
}

/// Calls the kernel, with a number.
#[inline]
fn kernel_call(value: u32) -> Outcome
    ensures value { result ≡ Outcome.Trap KERNEL_CALL value }
{
    Outcome::Trap {
        et: KERNEL_CALL,
        ed: value,
    }
}

/// Calls the exception handler where something holds, and else goes on.
#[inline]
fn call_where(holds: bool, value: u32, thread: &mut Thread) -> Outcome
    ensures row { (memory : List ℕ) → EndsAs result (own thread.old memory) (own thread.new memory) (calls_where (own thread.old memory) holds value) }
    ensures run { thread.new.run ≡ thread.old.run }
{
    if holds {
        return Outcome::Trap {
            et: ECALL,
            ed: value,
        };
    }
    go_on(thread)
}

/// Goes over to the kernel's stack, `u` words below the first one, which keeps sp.
#[inline]
fn enter_kernel(u: u32, thread: &mut Thread, ram: &mut Ram) -> Outcome
    ensures row { EndsAs result (own thread.old ram.old) (own thread.new ram.new) (enters_kernel (own thread.old ram.old) u) }
    ensures run { thread.new.run ≡ thread.old.run }
{
    match ram.store32(thread.ksp, thread.sp) {
        Ok(()) => {
            thread.sp = down(thread.ksp, 4, u);
            go_on(thread)
        }
        Err(_) => refused(thread.ksp),
    }
}

/// Leaves the kernel's stack, whose first word lies `u` words above sp and is sp again.
#[inline]
fn leave_kernel(u: u32, thread: &mut Thread, ram: &Ram) -> Outcome
    ensures row { EndsAs result (own thread.old ram.now) (own thread.new ram.now) (leaves_kernel (own thread.old ram.now) u) }
    ensures run { thread.new.run ≡ thread.old.run }
{
    let stack_end = up(thread.sp, 4, u);
    match ram.load32(stack_end) {
        Ok(word) => {
            thread.ksp = stack_end;
            thread.sp = word;
            go_on(thread)
        }
        Err(_) => refused(stack_end),
    }
}

/// Sets kep to r11, but for its low seven bits, which are 0.
#[inline]
fn set_kep(thread: &mut Thread) -> Outcome
    ensures done { result ≡ Outcome.Done }
    ensures thread { thread.new ≡ after_it (record thread.old { kep = register thread.old 11 / 128 * 128 }) }
{
    thread.kep = thread.reg(11) / 128 * 128;
    go_on(thread)
}

/// Sets those of the status bits in `u` that a program may set.
#[inline]
fn set_status(u: u16, thread: &mut Thread) -> Outcome
    ensures done { result ≡ Outcome.Done }
    ensures thread { thread.new ≡ after_it (record thread.old { sr = with_bits thread.old.sr (bit_and u SETTABLE) }) }
{
    thread.sr.insert(settable(u));
    go_on(thread)
}

/// Clears those of the status bits in `u` that a program may set.
#[inline]
fn clear_status(u: u16, thread: &mut Thread) -> Outcome
    ensures done { result ≡ Outcome.Done }
    ensures thread { thread.new ≡ after_it (record thread.old { sr = without_bits thread.old.sr (bit_and u SETTABLE) }) }
{
    thread.sr.remove(settable(u));
    go_on(thread)
}

/// Those of the status bits in `u` that a program may set.
#[inline]
fn settable(u: u16) -> Status
    ensures value { result ≡ status (bit_and u SETTABLE) }
{
    Status {
        bits: (u & u16::from(SETTABLE)) as u8,
    }
}

/// Loads a register of traps from the `n`-th word above sp.
#[inline]
fn load_saved(n: u32, saved: Saved, thread: &mut Thread, ram: &Ram) -> Outcome
    ensures row { EndsAs result (own thread.old ram.now) (own thread.new ram.now) (loads_from_stack (own thread.old ram.now) n (with_saved thread.old saved)) }
    ensures run { thread.new.run ≡ thread.old.run }
{
    let at = up(thread.sp, 4, n);
    match ram.load32(at) {
        Ok(word) => {
            set_saved(saved, word, thread);
            go_on(thread)
        }
        Err(_) => refused(at),
    }
}

/// Sets a register of traps.
#[inline]
fn set_saved(saved: Saved, word: u32, thread: &mut Thread)
    ensures value { thread.new ≡ with_saved thread.old saved word }
{
    match saved {
        Saved::Pc => thread.spc = word,
        Saved::Status => thread.ssr = Status::of_word(word),
        Saved::Data => thread.sed = word,
        Saved::Number => thread.et = word,
    }
}

/// Stores a word `n` words above sp.
#[inline]
fn store_on_stack(n: u32, word: u32, thread: &mut Thread, ram: &mut Ram) -> Outcome
    ensures row { EndsAs result (own thread.old ram.old) (own thread.new ram.new) (stores_to_stack (own thread.old ram.old) n word) }
    ensures run { thread.new.run ≡ thread.old.run }
{
    put_word(word, up(thread.sp, 4, n), thread, ram)
}
