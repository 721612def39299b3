//! The rows on the flow of control.
ghost use Rattle.std.specs.Prelude.{◌≡◌};
ghost use Rattle.xs_model.specs.Memory.{load_word};
ghost use Rattle.xs_instructions.specs.Instr.{FlowInRange};
ghost use Rattle.step_model.specs.Effect.{after_it};
ghost use Rattle.step_model.specs.MemoryRows.{loads};
ghost use Rattle.step_model.specs.FlowRows.{flow_row, after_branch, called, enters, returns};
ghost use Rattle.step_model.specs.Outcomes.{EndsAs};
ghost use Rattle.flow_unit.specs.Own.{own};

use crate::access::{go_on, refused};
use crate::address::{after_next, down, place_address, up};
use core_memory::Ram;
use core_state::{Outcome, Thread};
use xs_instructions::FlowIns;

/// Does a row on the flow of control.
#[inline]
pub(crate) fn control(thread: &mut Thread, ram: &mut Ram, ins: FlowIns) -> Outcome
    requires { FlowInRange ins }
    ensures row { EndsAs result (own thread.old ram.old) (own thread.new ram.new) (flow_row (own thread.old ram.old) ins) }
    ensures run { thread.new.run ≡ thread.old.run }
{
    match ins {
        FlowIns::Bt(s, place) => branch(thread.reg(s) != 0, place, thread),
        FlowIns::Bf(s, place) => branch(thread.reg(s) == 0, place, thread),
        FlowIns::Bu(place) => jump(place_address(place), thread),
        FlowIns::Bru(s) => jump(after_next(thread.pc, thread.reg(s)), thread),
        FlowIns::Bau(s) => jump(thread.reg(s), thread),
        FlowIns::Bl(place) => call(place_address(place), thread),
        FlowIns::Bla(s) => call(thread.reg(s), thread),
        FlowIns::BlaCp(u) => call_by_word(up(thread.cp, 4, u32::from(u)), thread, ram),
        FlowIns::Entsp(u) => enter(u32::from(u), thread, ram),
        FlowIns::Retsp(u) => leave(u32::from(u), thread, ram),
        FlowIns::Extsp(u) => set_sp(down(thread.sp, 4, u32::from(u)), thread),
        FlowIns::Extdp(u) => set_dp(down(thread.dp, 4, u32::from(u)), thread),
        FlowIns::SetSp(s) => set_sp(thread.reg(s), thread),
        FlowIns::SetDp(s) => set_dp(thread.reg(s), thread),
        FlowIns::SetCp(s) => set_cp(thread.reg(s), thread),
    }
}

/// Goes to a place of the code if the branch is taken, and else on.
#[inline]
fn branch(taken: bool, place: u16, thread: &mut Thread) -> Outcome
    ensures done { result ≡ Outcome.Done }
    ensures thread { thread.new ≡ after_branch taken place thread.old }
{
    if taken {
        jump(place_address(place), thread)
    } else {
        go_on(thread)
    }
}

/// Goes to an address.
#[inline]
fn jump(at: u32, thread: &mut Thread) -> Outcome
    ensures done { result ≡ Outcome.Done }
    ensures thread { thread.new ≡ record thread.old { pc = at } }
{
    thread.pc = at;
    Outcome::Done
}

/// Calls what stands at an address.
#[inline]
fn call(at: u32, thread: &mut Thread) -> Outcome
    ensures done { result ≡ Outcome.Done }
    ensures thread { thread.new ≡ called thread.old at }
{
    thread.lr = thread.pc.wrapping_add(4);
    jump(at, thread)
}

/// Calls what the word at an address is the address of.
#[inline]
fn call_by_word(at: u32, thread: &mut Thread, ram: &Ram) -> Outcome
    ensures row { EndsAs result (own thread.old ram.now) (own thread.new ram.now) (loads (own thread.old ram.now) at (load_word ram.now at) (called thread.old)) }
    ensures run { thread.new.run ≡ thread.old.run }
{
    match ram.load32(at) {
        Ok(word) => call(word, thread),
        Err(_) => refused(at),
    }
}

/// Enters a function whose frame has `u` words.
#[inline]
fn enter(u: u32, thread: &mut Thread, ram: &mut Ram) -> Outcome
    ensures row { EndsAs result (own thread.old ram.old) (own thread.new ram.new) (enters (own thread.old ram.old) u) }
    ensures run { thread.new.run ≡ thread.old.run }
{
    if u == 0 {
        return go_on(thread);
    }
    match ram.store32(thread.sp, thread.lr) {
        Ok(()) => set_sp(down(thread.sp, 4, u), thread),
        Err(_) => refused(thread.sp),
    }
}

/// Returns from a function whose frame has `u` words.
#[inline]
fn leave(u: u32, thread: &mut Thread, ram: &Ram) -> Outcome
    ensures row { EndsAs result (own thread.old ram.now) (own thread.new ram.now) (returns (own thread.old ram.now) u) }
    ensures run { thread.new.run ≡ thread.old.run }
{
    if u == 0 {
        return jump(thread.lr, thread);
    }
    let frame_end = up(thread.sp, 4, u);
    match ram.load32(frame_end) {
        Ok(word) => {
            thread.sp = frame_end;
            thread.lr = word;
            jump(word, thread)
        }
        Err(_) => refused(frame_end),
    }
}

/// Sets sp.
#[inline]
fn set_sp(word: u32, thread: &mut Thread) -> Outcome
    ensures done { result ≡ Outcome.Done }
    ensures thread { thread.new ≡ after_it (record thread.old { sp = word }) }
{
    thread.sp = word;
    go_on(thread)
}

/// Sets dp.
#[inline]
fn set_dp(word: u32, thread: &mut Thread) -> Outcome
    ensures done { result ≡ Outcome.Done }
    ensures thread { thread.new ≡ after_it (record thread.old { dp = word }) }
{
    thread.dp = word;
    go_on(thread)
}

/// Sets cp.
#[inline]
fn set_cp(word: u32, thread: &mut Thread) -> Outcome
    ensures done { result ≡ Outcome.Done }
    ensures thread { thread.new ≡ after_it (record thread.old { cp = word }) }
{
    thread.cp = word;
    go_on(thread)
}
