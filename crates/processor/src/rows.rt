//! The rows on the thread that issues and on the memory: the unit of a row does it, and here it is put into the core.
ghost use Rattle.std.specs.Prelude.{◌≡◌, ◌<◌, IsTrue};
ghost use Rattle.xs_base.specs.declared.numbers.TheConstants.{THREADS};
ghost use Rattle.xs_model.specs.declared.thread.Run.TheVariants.{Going};
ghost use Rattle.xs_model.specs.Record.{thread_of, with_thread};
ghost use Rattle.xs_model.specs.Entry.{returned};
ghost use Rattle.xs_instructions.specs.Instr.{InRange, WordsInRange};
ghost use Rattle.step_model.specs.Effect.{Setting, on_registers};
ghost use Rattle.step_model.specs.WordRows.{words_row};
ghost use Rattle.step_model.specs.Rows.{effect};
ghost use Rattle.flow_unit.specs.Own.{is_own};
ghost use Rattle.core_units.specs.Units.{Ends};
ghost use Rattle.processor.specs.Issue.{gone_on};
ghost use Rattle.processor.specs.Knows.{StaysKnown};

use alu_unit::alu;
use core_units::Units;
use flow_unit::flow;
use xs_instructions::{Instr, WordIns};
use xs_model::{Outcome, Thread};

// A row on words.
#[inline]
pub(crate) fn words(units: &mut Units, k: u8, ins: WordIns) -> Outcome
    requires thread { k < THREADS }
    requires going { (thread_of units.old k).run ≡ Going }
    requires range { WordsInRange ins }
    ensures row { Ends result units.old units.new (on_registers units.old k (words_row (thread_of units.old k) ins)) }
    ensures known { StaysKnown units.old units.new }
{
    let thread = &mut units.threads[k as usize];
    let outcome = alu(thread, ins);
    go_on_where_done(thread, outcome);
    outcome
}

// A row on memory, on the flow of control or on the kernel, but for the return.
#[inline]
pub(crate) fn own(units: &mut Units, k: u8, ins: Instr) -> Outcome
    requires thread { k < THREADS }
    requires going { (thread_of units.old k).run ≡ Going }
    requires part { IsTrue (is_own ins) }
    requires range { InRange ins }
    ensures row { (here : Setting) → Ends result units.old units.new (effect here units.old k ins) }
    ensures known { StaysKnown units.old units.new }
{
    let thread = &mut units.threads[k as usize];
    flow(thread, k, &mut units.ram, ins)
}

// The return from a trap or an interrupt.
pub(crate) fn kret(units: &mut Units, k: u8)
    requires thread { k < THREADS }
    requires going { (thread_of units.old k).run ≡ Going }
    ensures value { units.new ≡ with_thread units.old k (returned (thread_of units.old k)) }
    ensures known { StaysKnown units.old units.new }
{
    trap_unit::kret(&mut units.threads[k as usize]);
}

// The thread goes on to its next instruction where its row was done.
#[inline]
fn go_on_where_done(thread: &mut Thread, outcome: Outcome)
    ensures { thread.new ≡ gone_on outcome thread.old }
{
    if matches!(outcome, Outcome::Done) {
        thread.pc = thread.pc.wrapping_add(4);
    }
}
