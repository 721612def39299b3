//! The rows on threads. See docs/THREADS.md.
ghost use Rattle.std.specs.Prelude.{◌≡◌, ◌<◌};
ghost use Rattle.xs_base.specs.declared.numbers.TheConstants.{THREADS};
ghost use Rattle.xs_instructions.specs.Instr.{ThreadsInRange};
ghost use Rattle.step_model.specs.Effect.{Setting};
ghost use Rattle.step_model.specs.ThreadRows.{threads_row};
ghost use Rattle.core_units.specs.Units.{Ends};

use crate::itself::{freet, ssync};
use crate::masters::{getst, mjoin, msync};
use crate::others::{Target, set_other, start};
use core_units::Units;
use xs_instructions::ThreadIns;
use xs_model::Outcome;

// The numbers of a thread's registers after r11, as `Thread::set_reg` counts them.
const CP: u8 = 12;

const DP: u8 = 13;

const SP: u8 = 14;

const LR: u8 = 15;

/// A row on threads, of thread k, 0 to 7, on the node with this id, in a slot. It leaves what the definitions say, and the
/// outcome is how it ends. See docs/THREADS.md.
pub fn on_threads(units: &mut Units, id: u16, slot: u32, k: u8, ins: ThreadIns) -> Outcome
    requires thread { k < THREADS }
    requires range { ThreadsInRange ins }
    ensures row { (here : Setting) → here.id ≡ id → here.slot ≡ slot → Ends result units.old units.new (threads_row here units.old k ins) }
{
    match ins {
        ThreadIns::Getst(d, s) => getst(units, id, slot, k, d, s),
        ThreadIns::InitPc(s, x) => set_other(units, id, k, s, Target::Pc, x),
        ThreadIns::InitSp(s, x) => set_other(units, id, k, s, Target::Register(SP), x),
        ThreadIns::InitDp(s, x) => set_other(units, id, k, s, Target::Register(DP), x),
        ThreadIns::InitCp(s, x) => set_other(units, id, k, s, Target::Register(CP), x),
        ThreadIns::InitLr(s, x) => set_other(units, id, k, s, Target::Register(LR), x),
        ThreadIns::SetOther(s, d, x) => set_other(units, id, k, s, Target::Register(d), x),
        ThreadIns::Start(s) => start(units, id, k, s),
        ThreadIns::Msync(s) => msync(units, id, k, s),
        ThreadIns::Mjoin(s) => mjoin(units, id, k, s),
        ThreadIns::Ssync => ssync(units, k),
        ThreadIns::Freet => freet(units, k),
    }
}
