//! The rows on the thread that a register names. See docs/THREADS.md.
ghost use Rattle.std.specs.Prelude.{◌≡◌, ◌<◌, IfSome};
ghost use Rattle.xs_base.specs.declared.numbers.TheConstants.{THREADS};
ghost use Rattle.xs_instructions.specs.declared.instr.ThreadIns.TheVariants.{Start};
ghost use Rattle.step_model.specs.Effect.{Setting, reg};
ghost use Rattle.step_model.specs.Named.{resource_named};
ghost use Rattle.step_model.specs.ThreadRows.{threads_row, may_start, sets_other};
ghost use Rattle.core_units.specs.Units.{Ends};
ghost use Rattle.thread_rows.specs.Named.{named_thread};
ghost use Rattle.thread_rows.specs.Targets.{IsTarget, with_target};

use crate::itself::is_slave;
use core_units::{Units, illegal, resource_named};
use core_waits::is_in;
use xs_model::{Outcome, Resource, Run, Thread};

/// What a row sets of another thread.
#[derive(Clone, Copy)]
pub(crate) enum Target {
    Pc,
    Register(u8),
}

pub(crate) fn set_other(units: &mut Units, id: u16, k: u8, s: u8, target: Target, x: u8) -> Outcome
    requires thread { k < THREADS }
    requires name { s < 12 }
    requires value { x < 12 }
    requires target { IsTarget target }
    ensures row { (here : Setting) → here.id ≡ id → Ends result units.old units.new (sets_other here units.old k s (with_target target (reg units.old k x))) }
{
    let (name, value) = (units.reg(k, s), units.reg(k, x));
    match thread_named(id, name) {
        Some(j) if is_in(units.threads[j as usize].run) => {
            set(&mut units.threads[j as usize], target, value);
            units.go_on(k);
            Outcome::Done
        }
        _ => illegal(name),
    }
}

pub(crate) fn start(units: &mut Units, id: u16, k: u8, s: u8) -> Outcome
    requires thread { k < THREADS }
    requires source { s < 12 }
    ensures row { (here : Setting) → here.id ≡ id → Ends result units.old units.new (threads_row here units.old k (Start s)) }
{
    let name = units.reg(k, s);
    match thread_named(id, name) {
        Some(j) if may_start(units, j) => {
            units.set_run(j, Run::Going);
            units.go_on(k);
            Outcome::Done
        }
        _ => illegal(name),
    }
}

// Whether a thread is unstarted, and no master starts it.
fn may_start(units: &Units, j: u8) -> bool
    requires { j < THREADS }
    ensures { result ≡ may_start units.now j }
{
    matches!(units.threads[j as usize].run, Run::Unstarted) && !is_slave(units, j)
}

fn set(thread: &mut Thread, target: Target, value: u32)
    requires { IsTarget target }
    ensures { thread.new ≡ with_target target value thread.old }
{
    match target {
        Target::Pc => thread.pc = value,
        Target::Register(g) => thread.set_reg(g, value),
    }
}

// The thread, 0 to 7, that a word names.
fn thread_named(id: u16, name: u32) -> Option<u8>
    ensures value { result ≡ named_thread (resource_named id name) }
    ensures within { IfSome result (λ j. j < THREADS) }
{
    match resource_named(id, name) {
        Some(Resource::Thread { thread }) => Some(thread),
        _ => None,
    }
}
