//! At most one issue in a slot.
ghost use Rattle.std.specs.Prelude.{◌≡◌, ◌<◌, ◌≤◌, ◌+◌, Some, None, is_some, length, IsTrue};
ghost use Rattle.xs_base.specs.declared.numbers.TheConstants.{THREADS, EVENT_ROOM, ISSUE_EVENTS};
ghost use Rattle.xs_model.specs.declared.thread.Run.TheVariants.{Going};
ghost use Rattle.xs_model.specs.Record.{thread_of, with_thread, with_run, with_last};
ghost use Rattle.xs_instructions.specs.Instr.{InRange, WordsInRange, ResourcesInRange};
ghost use Rattle.xs_instructions.specs.Code.{code_at};
ghost use Rattle.step_model.specs.Effect.{Setting};
ghost use Rattle.step_model.specs.Rows.{effect};
ghost use Rattle.step_model.specs.ResourceRows.{resources_row};
ghost use Rattle.step_model.specs.Step.{issue_begins, executed, settled, trap, issued, issued_by};
ghost use Rattle.core_units.specs.Here.{IsHere};
ghost use Rattle.step_model.specs.DividerRows.{words_effect};
ghost use Rattle.xs_model.specs.Outside.{LevelsFit};
ghost use Rattle.xs_model.specs.Picks.{picked};
ghost use Rattle.core_units.specs.Ending.{IsEnding};
ghost use Rattle.core_units.specs.Units.{Ends, EndsWith};
ghost use Rattle.processor.specs.Issue.{IsIssuedAt, effect_of, effect_with, is_quiet, and_happened, IsLeft, entered_by};
ghost use Rattle.processor.specs.Knows.{StaysKnown};

use crate::divider::divide;
use crate::processor::Processor;
use crate::program::Program;
use crate::rows::{kret, own, words};
use alu_unit::is_division;
use core_units::{Ending, Holders, Units};
use event_unit::Choice;
use resource_rows::on_resources;
use thread_rows::on_threads;
use trace_lines::Emissions;
use trap_unit::{enter_event, enter_interrupt, enter_trap, return_address};
use xs_instructions::{Instr, KernelIns, ResIns, WordIns};
use xs_model::traps::ILLEGAL_PC;
use xs_model::{Event, Happen, Outcome, PinView, Run, Thread};

impl Processor {
    /// At most one issue, by the thread that is picked in a slot. What happens is put after the events of `out`. See
    /// docs/MACHINE.md.
    #[inline]
    pub fn issue<H: Holders>(
        &mut self,
        program: &Program,
        slot: u32,
        pins: &PinView,
        holders: &H,
        out: &mut Emissions,
    )
        requires room { length out.old.events + ISSUE_EVENTS ≤ EVENT_ROOM }
        requires levels { LevelsFit pins.now.level }
        ensures units { (here : Setting) → IsIssuedAt program.now slot pins.now (H.busy holders.now) here →
            self.new ≡ (issued program.now.code here self.old).core }
        ensures events { (here : Setting) → IsIssuedAt program.now slot pins.now (H.busy holders.now) here →
            out.new ≡ and_happened out.old slot (issued program.now.code here self.old).happened }
    {
        if let Some(k) = self.picked(slot) {
            self.issue_by(k, program, slot, pins, holders, out);
        }
    }

    // Thread k issues. It stands apart, so that slots in which nobody issues are quick.
    #[inline(never)]
    fn issue_by<H: Holders>(
        &mut self,
        k: u8,
        program: &Program,
        slot: u32,
        pins: &PinView,
        holders: &H,
        out: &mut Emissions,
    )
        requires thread { k < THREADS }
        requires room { length out.old.events + ISSUE_EVENTS ≤ EVENT_ROOM }
        requires levels { LevelsFit pins.now.level }
        ensures { (here : Setting) → IsIssuedAt program.now slot pins.now (H.busy holders.now) here →
            IsLeft slot out.old self.new out.new (issued_by program.now.code here self.old (Some k)) }
    {
        self.begin(k, slot);
        match self.choice(k, slot) {
            Some(choice) => self.enter(k, choice),
            None => self.execute_at(k, program, slot, pins, holders, out),
        }
    }

    // Thread k takes an event or an interrupt.
    fn enter(&mut self, k: u8, choice: Choice)
        requires thread { k < THREADS }
        requires going { (thread_of self.old k).run ≡ Going }
        ensures { self.new ≡ with_thread self.old k (entered_by choice (thread_of self.old k)) }
    {
        take(&mut self.units, k, choice);
    }

    // The instruction where thread k is is executed, if one stands there.
    fn execute_at<H: Holders>(
        &mut self,
        k: u8,
        program: &Program,
        slot: u32,
        pins: &PinView,
        holders: &H,
        out: &mut Emissions,
    )
        requires thread { k < THREADS }
        requires going { (thread_of self.old k).run ≡ Going }
        requires room { length out.old.events + ISSUE_EVENTS ≤ EVENT_ROOM }
        requires levels { LevelsFit pins.now.level }
        ensures { (here : Setting) → IsIssuedAt program.now slot pins.now (H.busy holders.now) here →
            IsLeft slot out.old self.new out.new (executed program.now.code here self.old k (code_at program.now.code (thread_of self.old k).pc)) }
    {
        let pc = self.pc_of(k);
        match program.at(pc) {
            None => self.trap(k, program, ILLEGAL_PC, pc, slot, out),
            Some(Instr::Resources(ins)) => {
                let ending = self.use_resource(k, program.id(), slot, pins, holders, ins);
                self.settle(k, program, ending, slot, out);
            }
            Some(ins) => {
                let outcome = self.execute(k, program, slot, ins);
                self.settle_quietly(k, program, outcome, slot, out);
            }
        }
    }

    // The slot is thread k's last issue now, and its pause is over.
    fn begin(&mut self, k: u8, slot: u32)
        requires thread { k < THREADS }
        ensures units { self.new ≡ issue_begins self.old slot k }
        ensures going { (thread_of self.new k).run ≡ Going }
    {
        mark(&mut self.units, k, slot);
        if !matches!(self.run_of(k), Run::Going) {
            self.set_run(k, Run::Going);
        }
    }

    // Where thread k is.
    fn pc_of(&self, k: u8) -> u32
        requires { k < THREADS }
        ensures { result ≡ (thread_of self.now k).pc }
    {
        pc_of(&self.units, k)
    }

    // What thread k does from now on.
    fn set_run(&mut self, k: u8, run: Run)
        requires thread { k < THREADS }
        ensures { self.new ≡ with_run self.old k run }
    {
        self.able = None;
        self.units.set_run(k, run);
    }

    // What an instruction on a resource does when thread k issues it.
    fn use_resource<H: Holders>(
        &mut self,
        k: u8,
        id: u16,
        slot: u32,
        pins: &PinView,
        holders: &H,
        ins: ResIns,
    ) -> Ending
        requires thread { k < THREADS }
        requires range { ResourcesInRange ins }
        requires levels { LevelsFit pins.now.level }
        ensures row { (here : Setting) → IsHere id slot pins.now (H.busy holders.now) here → EndsWith result self.old self.new (resources_row here self.old k ins) }
        ensures within { IsEnding result }
    {
        self.able = None;
        on_resources(&mut self.units, id, slot, k, pins, holders, ins)
    }

    // What another instruction does when thread k issues it. It answers by less than an `Ending`, since nothing happens by it
    // but a trap.
    fn execute(&mut self, k: u8, program: &Program, slot: u32, ins: Instr) -> Outcome
        requires thread { k < THREADS }
        requires going { (thread_of self.old k).run ≡ Going }
        requires range { InRange ins }
        requires part { IsTrue (is_quiet ins) }
        ensures row { (here : Setting) → here.edition ≡ program.now.edition → here.id ≡ program.now.id → here.slot ≡ slot → Ends result self.old self.new (effect here self.old k ins) }
    {
        match ins {
            Instr::Words(ins) => self.on_words(k, program, slot, ins),
            Instr::Kernel(KernelIns::Kret) => {
                kret(&mut self.units, k);
                Outcome::Done
            }
            Instr::Memory(_) | Instr::Flow(_) | Instr::Kernel(_) => own(&mut self.units, k, ins),
            Instr::Threads(ins) => {
                self.able = None;
                on_threads(&mut self.units, program.id(), slot, k, ins)
            }
            Instr::Resources(_) => unreachable!(),
        }
    }

    // What a row on words does when thread k issues it.
    #[inline]
    fn on_words(&mut self, k: u8, program: &Program, slot: u32, ins: WordIns) -> Outcome
        requires thread { k < THREADS }
        requires going { (thread_of self.old k).run ≡ Going }
        requires range { WordsInRange ins }
        ensures { (here : Setting) → here.edition ≡ program.now.edition → here.slot ≡ slot → Ends result self.old self.new (words_effect here self.old k ins) }
    {
        if program.has_shared_divider() && is_division(ins) {
            self.able = None;
            divide(&mut self.units, k, slot, ins)
        } else {
            words(&mut self.units, k, ins)
        }
    }

    // What the end of its instruction makes of thread k, and what happens by it.
    fn settle(&mut self, k: u8, program: &Program, ending: Ending, slot: u32, out: &mut Emissions)
        requires thread { k < THREADS }
        requires within { IsEnding ending }
        requires room { length out.old.events + ISSUE_EVENTS ≤ EVENT_ROOM }
        ensures { IsLeft slot out.old self.new out.new (settled program.now.code self.old k (effect_with ending self.old)) }
    {
        match ending {
            Ending::Quietly(outcome) => self.settle_quietly(k, program, outcome, slot, out),
            Ending::Done(what) => out.add_event(Event { slot, what }),
            Ending::Pause(wait, what) => {
                self.set_run(k, Run::Paused(wait));
                out.add_event(Event { slot, what });
            }
        }
    }

    // The same of an outcome by which nothing happens but a trap.
    fn settle_quietly(
        &mut self,
        k: u8,
        program: &Program,
        outcome: Outcome,
        slot: u32,
        out: &mut Emissions,
    )
        requires thread { k < THREADS }
        requires room { length out.old.events + ISSUE_EVENTS ≤ EVENT_ROOM }
        ensures { IsLeft slot out.old self.new out.new (settled program.now.code self.old k (effect_of outcome self.old)) }
    {
        match outcome {
            Outcome::Done | Outcome::Gone => {}
            Outcome::Pause(wait) => self.set_run(k, Run::Paused(wait)),
            Outcome::Trap { et, ed } => self.trap(k, program, et, ed, slot, out),
        }
    }

    // Thread k traps. It halts where no code stands at its handler's address.
    fn trap(&mut self, k: u8, program: &Program, et: u32, ed: u32, slot: u32, out: &mut Emissions)
        requires thread { k < THREADS }
        requires room { length out.old.events + ISSUE_EVENTS ≤ EVENT_ROOM }
        ensures { IsLeft slot out.old self.new out.new (trap program.now.code self.old k et ed) }
    {
        self.able = None;
        trap(&mut self.units, k, program, et, ed, slot, out);
    }
}

// The slot is thread k's last issue now.
#[inline]
fn mark(units: &mut Units, k: u8, slot: u32)
    requires { k < THREADS }
    ensures value { units.new ≡ with_last units.old k slot }
    ensures known { StaysKnown units.old units.new }
{
    units.slots.mark_issue(k, slot);
}

// Where a thread is.
#[inline]
fn pc_of(units: &Units, k: u8) -> u32
    requires { k < THREADS }
    ensures { result ≡ (thread_of units.now k).pc }
{
    units.threads[k as usize].pc
}

// Thread k takes an event or an interrupt.
#[inline]
fn take(units: &mut Units, k: u8, choice: Choice)
    requires thread { k < THREADS }
    requires going { (thread_of units.old k).run ≡ Going }
    ensures value { units.new ≡ with_thread units.old k (entered_by choice (thread_of units.old k)) }
    ensures known { StaysKnown units.old units.new }
{
    take_choice(&mut units.threads[k as usize], choice);
}

// The thread takes an event or an interrupt.
fn take_choice(thread: &mut Thread, choice: Choice)
    ensures value { thread.new ≡ entered_by choice thread.old }
    ensures run { thread.new.run ≡ thread.old.run }
{
    if choice.interrupt {
        enter_interrupt(thread, choice.vector, choice.env);
    } else {
        enter_event(thread, choice.vector, choice.env);
    }
}

// Thread k traps. It halts where no code stands at its handler's address.
fn trap(
    units: &mut Units,
    k: u8,
    program: &Program,
    et: u32,
    ed: u32,
    slot: u32,
    out: &mut Emissions,
)
    requires thread { k < THREADS }
    requires room { length out.old.events + ISSUE_EVENTS ≤ EVENT_ROOM }
    ensures { IsLeft slot out.old units.new out.new (trap program.now.code units.old k et ed) }
{
    let thread = &mut units.threads[k as usize];
    let next = return_address(thread, et);
    enter_trap(thread, et, ed, next);
    out.add_event(Event {
        slot,
        what: Happen::Trap {
            thread: k,
            et,
            pc: next,
            ed,
        },
    });
    if !program.stands_at(thread.pc) {
        thread.run = Run::Halted;
        out.add_event(Event {
            slot,
            what: Happen::Halt { thread: k },
        });
    }
}
