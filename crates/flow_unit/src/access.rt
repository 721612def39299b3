//! What the rows are made of: going on, loads into a register and stores.
ghost use Rattle.std.specs.Prelude.{◌≡◌, ◌<◌};
ghost use Rattle.xs_model.specs.declared.traps.TheConstants.{LOAD_STORE};
ghost use Rattle.xs_model.specs.Threads.{with_register};
ghost use Rattle.xs_model.specs.Memory.{store_word};
ghost use Rattle.step_model.specs.Effect.{after_it};
ghost use Rattle.step_model.specs.MemoryRows.{stores, loads_word, loads_half, loads_byte, stores_word, stores_half, stores_byte};
ghost use Rattle.step_model.specs.Outcomes.{EndsAs};
ghost use Rattle.flow_unit.specs.Own.{own};

use core_memory::Ram;
use core_state::{Outcome, Thread};
use xs_model::traps::LOAD_STORE;

/// Goes on to the next instruction.
#[inline]
pub(crate) fn go_on(thread: &mut Thread) -> Outcome
    ensures done { result ≡ Outcome.Done }
    ensures thread { thread.new ≡ after_it thread.old }
{
    thread.pc = thread.pc.wrapping_add(4);
    Outcome::Done
}

/// What becomes of a load or a store at an address that the memory refuses.
#[inline]
pub(crate) fn refused(at: u32) -> Outcome
    ensures value { result ≡ Outcome.Trap LOAD_STORE at }
{
    Outcome::Trap {
        et: LOAD_STORE,
        ed: at,
    }
}

/// Puts a word into register g.
#[inline]
pub(crate) fn set(g: u8, word: u32, thread: &mut Thread) -> Outcome
    requires { g < 16 }
    ensures done { result ≡ Outcome.Done }
    ensures thread { thread.new ≡ after_it (with_register thread.old g word) }
{
    thread.set_reg(g, word);
    go_on(thread)
}

/// Loads the word at an address into register g.
#[inline]
pub(crate) fn load_word(g: u8, at: u32, thread: &mut Thread, ram: &Ram) -> Outcome
    requires { g < 16 }
    ensures row { EndsAs result (own thread.old ram.now) (own thread.new ram.now) (loads_word (own thread.old ram.now) g at) }
    ensures run { thread.new.run ≡ thread.old.run }
{
    match ram.load32(at) {
        Ok(word) => set(g, word, thread),
        Err(_) => refused(at),
    }
}

/// Stores the word of register g at an address.
#[inline]
pub(crate) fn store_word(g: u8, at: u32, thread: &mut Thread, ram: &mut Ram) -> Outcome
    requires { g < 16 }
    ensures row { EndsAs result (own thread.old ram.old) (own thread.new ram.new) (stores_word (own thread.old ram.old) g at) }
    ensures run { thread.new.run ≡ thread.old.run }
{
    put_word(thread.reg(g), at, thread, ram)
}

/// Stores a word at an address.
#[inline]
pub(crate) fn put_word(word: u32, at: u32, thread: &mut Thread, ram: &mut Ram) -> Outcome
    ensures row { EndsAs result (own thread.old ram.old) (own thread.new ram.new) (stores at (store_word ram.old at word) (after_it thread.old)) }
    ensures run { thread.new.run ≡ thread.old.run }
{
    match ram.store32(at, word) {
        Ok(()) => go_on(thread),
        Err(_) => refused(at),
    }
}

/// Loads the half at an address, signed, into register g.
#[inline]
pub(crate) fn load_half(g: u8, at: u32, thread: &mut Thread, ram: &Ram) -> Outcome
    requires { g < 16 }
    ensures row { EndsAs result (own thread.old ram.now) (own thread.new ram.now) (loads_half (own thread.old ram.now) g at) }
    ensures run { thread.new.run ≡ thread.old.run }
{
    match ram.load16s(at) {
        Ok(half) => set(g, half, thread),
        Err(_) => refused(at),
    }
}

/// Loads the byte at an address into register g.
#[inline]
pub(crate) fn load_byte(g: u8, at: u32, thread: &mut Thread, ram: &Ram) -> Outcome
    requires { g < 16 }
    ensures row { EndsAs result (own thread.old ram.now) (own thread.new ram.now) (loads_byte (own thread.old ram.now) g at) }
    ensures run { thread.new.run ≡ thread.old.run }
{
    match ram.load8u(at) {
        Ok(byte) => set(g, byte, thread),
        Err(_) => refused(at),
    }
}

/// Stores the low half of register g at an address.
#[inline]
pub(crate) fn store_half(g: u8, at: u32, thread: &mut Thread, ram: &mut Ram) -> Outcome
    requires { g < 16 }
    ensures row { EndsAs result (own thread.old ram.old) (own thread.new ram.new) (stores_half (own thread.old ram.old) g at) }
    ensures run { thread.new.run ≡ thread.old.run }
{
    match ram.store16(at, thread.reg(g)) {
        Ok(()) => go_on(thread),
        Err(_) => refused(at),
    }
}

/// Stores the low byte of register g at an address.
#[inline]
pub(crate) fn store_byte(g: u8, at: u32, thread: &mut Thread, ram: &mut Ram) -> Outcome
    requires { g < 16 }
    ensures row { EndsAs result (own thread.old ram.old) (own thread.new ram.new) (stores_byte (own thread.old ram.old) g at) }
    ensures run { thread.new.run ≡ thread.old.run }
{
    match ram.store8(at, thread.reg(g)) {
        Ok(()) => go_on(thread),
        Err(_) => refused(at),
    }
}
