//! The divider that the threads of a core share. See docs/MACHINE.md.
ghost use Rattle.std.specs.Prelude.{◌≡◌, ◌<◌, IsTrue};
ghost use Rattle.xs_base.specs.declared.numbers.TheConstants.{THREADS};
ghost use Rattle.xs_model.specs.Record.{thread_of};
ghost use Rattle.xs_instructions.specs.Instr.{WordsInRange};
ghost use Rattle.step_model.specs.WordRows.{words_row};
ghost use Rattle.step_model.specs.DividerRows.{is_division, on_divider};
ghost use Rattle.core_units.specs.Units.{Ends};

use alu_unit::division;
use core_units::Units;
use xs_instructions::WordIns;
use xs_model::{Outcome, Wait};

// A row that divides by the shared divider. It is done on a copy of the thread first, which tells whether it traps.
#[inline(never)]
pub(crate) fn divide(units: &mut Units, k: u8, slot: u32, ins: WordIns) -> Outcome
    requires thread { k < THREADS }
    requires range { WordsInRange ins }
    requires part { IsTrue (is_division ins) }
    ensures { Ends result units.old units.new (on_divider slot units.old k (words_row (thread_of units.old k) ins)) }
{
    let mut thread = units.threads[k as usize];
    let outcome = division(&mut thread, ins);
    if !matches!(outcome, Outcome::Done) {
        return outcome;
    }
    if !units.slots.divider_free(slot) {
        return Outcome::Pause(Wait::Divider);
    }
    units.slots.take_divider(slot);
    thread.pc = thread.pc.wrapping_add(4);
    units.threads[k as usize] = thread;
    Outcome::Done
}
