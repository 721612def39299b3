//! The rows on memory, on the flow of control and on the kernel. See docs/INSTRUCTIONS.md.
#![tactic(auto)]

ghost use Rattle.std.specs.Prelude.{◌≡◌, IsTrue};
ghost use Rattle.xs_instructions.specs.Instr.{InRange};
ghost use Rattle.step_model.specs.Outcomes.{EndsAs, IsDoneOrTraps};
ghost use Rattle.step_model.specs.Rows.{own_row};
ghost use Rattle.flow_unit.specs.Own.{own, is_own};

mod access;
mod address;
mod control;
mod kernel;
mod memory;

use core_memory::Ram;
use core_state::{Outcome, Thread};
use xs_instructions::Instr;

/// Does an instruction on memory, on the flow of control or on the kernel, other than `kret`: thread number `id`, 0 to 7,
/// issues it. The answer is `Done`, with the thread's pc where the row says; or `Trap`, and then thread and memory are as
/// they were. `kcall` answers `Trap` with 15 and its operand. See docs/INSTRUCTIONS.md.
#[inline]
#[tactic(auto, using(crate::proofs::Ends::done_or_traps))]
pub fn flow(thread: &mut Thread, id: u8, ram: &mut Ram, ins: Instr) -> Outcome
    requires part { IsTrue (is_own ins) }
    requires range { InRange ins }
    ensures row { EndsAs result (own thread.old ram.old) (own thread.new ram.new) (own_row id (own thread.old ram.old) ins) }
    ensures ends { IsDoneOrTraps result (own thread.old ram.old) (own thread.new ram.new) }
    ensures run { thread.new.run ≡ thread.old.run }
{
    match ins {
        Instr::Memory(ins) => memory::memory(thread, ram, ins),
        Instr::Flow(ins) => control::control(thread, ram, ins),
        Instr::Kernel(ins) => kernel::kernel(thread, id, ram, ins),
        _ => unreachable!(),
    }
}
