//! The rows on memory.
ghost use Rattle.std.specs.Prelude.{◌≡◌};
ghost use Rattle.xs_instructions.specs.Instr.{MemoryInRange};
ghost use Rattle.step_model.specs.MemoryRows.{memory_row};
ghost use Rattle.step_model.specs.Outcomes.{EndsAs};
ghost use Rattle.flow_unit.specs.Own.{own};

use crate::access::{load_byte, load_half, load_word, set, store_byte, store_half, store_word};
use crate::address::{down, place_address, up};
use core_memory::Ram;
use core_state::{Outcome, Thread};
use xs_instructions::MemIns;

/// Does a row on memory.
#[inline]
pub(crate) fn memory(thread: &mut Thread, ram: &mut Ram, ins: MemIns) -> Outcome
    requires { MemoryInRange ins }
    ensures row { EndsAs result (own thread.old ram.old) (own thread.new ram.new) (memory_row (own thread.old ram.old) ins) }
    ensures run { thread.new.run ≡ thread.old.run }
{
    match ins {
        MemIns::LdwImm(d, x, i) => load_word(d, up(thread.reg(x), 4, u32::from(i)), thread, ram),
        MemIns::Ldw(d, x, y) => load_word(d, up(thread.reg(x), 4, thread.reg(y)), thread, ram),
        MemIns::LdwDp(g, u) => load_word(g, up(thread.dp, 4, u32::from(u)), thread, ram),
        MemIns::LdwSp(g, u) => load_word(g, up(thread.sp, 4, u32::from(u)), thread, ram),
        MemIns::LdwCp(d, u) => load_word(d, up(thread.cp, 4, u32::from(u)), thread, ram),
        MemIns::StwImm(d, x, i) => store_word(d, up(thread.reg(x), 4, u32::from(i)), thread, ram),
        MemIns::Stw(d, x, y) => store_word(d, up(thread.reg(x), 4, thread.reg(y)), thread, ram),
        MemIns::StwDp(g, u) => store_word(g, up(thread.dp, 4, u32::from(u)), thread, ram),
        MemIns::StwSp(g, u) => store_word(g, up(thread.sp, 4, u32::from(u)), thread, ram),
        MemIns::Ld16s(d, x, y) => load_half(d, up(thread.reg(x), 2, thread.reg(y)), thread, ram),
        MemIns::Ld8u(d, x, y) => load_byte(d, up(thread.reg(x), 1, thread.reg(y)), thread, ram),
        MemIns::St16(d, x, y) => store_half(d, up(thread.reg(x), 2, thread.reg(y)), thread, ram),
        MemIns::St8(d, x, y) => store_byte(d, up(thread.reg(x), 1, thread.reg(y)), thread, ram),
        MemIns::Ldaw(d, x, y) => set(d, up(thread.reg(x), 4, thread.reg(y)), thread),
        MemIns::LdawBack(d, x, y) => set(d, down(thread.reg(x), 4, thread.reg(y)), thread),
        MemIns::LdawImm(d, x, i) => set(d, up(thread.reg(x), 4, u32::from(i)), thread),
        MemIns::LdawBackImm(d, x, i) => set(d, down(thread.reg(x), 4, u32::from(i)), thread),
        MemIns::LdawDp(d, u) => set(d, up(thread.dp, 4, u32::from(u)), thread),
        MemIns::LdawSp(d, u) => set(d, up(thread.sp, 4, u32::from(u)), thread),
        MemIns::LdawCp(u) => set(11, up(thread.cp, 4, u32::from(u)), thread),
        MemIns::Lda16(d, x, y) => set(d, up(thread.reg(x), 2, thread.reg(y)), thread),
        MemIns::Lda16Back(d, x, y) => set(d, down(thread.reg(x), 2, thread.reg(y)), thread),
        MemIns::Ldap(place) => set(11, place_address(place), thread),
    }
}
