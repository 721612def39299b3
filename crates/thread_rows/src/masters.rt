//! The rows of a master, on the synchroniser that a register names. See docs/THREADS.md.
ghost use Rattle.std.specs.Prelude.{ℕ, ◌≡◌, ◌<◌, [], true, IfSome, IfOk, IfErr};
ghost use Rattle.xs_base.specs.declared.numbers.TheConstants.{THREADS, SYNCHRONISERS};
ghost use Rattle.xs_model.specs.Record.{CoreRec, sync_of};
ghost use Rattle.xs_model.specs.Syncs.{is_thread};
ghost use Rattle.xs_model.specs.Waits.{all_in};
ghost use Rattle.xs_instructions.specs.declared.instr.ThreadIns.TheVariants.{Getst, Mjoin, Msync};
ghost use Rattle.step_model.specs.Effect.{Setting, Done, goes_on, goes_on_with};
ghost use Rattle.step_model.specs.Named.{resource_named};
ghost use Rattle.step_model.specs.ThreadRows.{threads_row, as_master, when_all_in, thread_to_get, slave_got, with_slaves_run, slaves_are_freed};
ghost use Rattle.core_units.specs.Units.{Ends};
ghost use Rattle.thread_rows.specs.Named.{mastered};

use core_units::{Units, illegal, resource_named};
use core_waits::{drop_threads, set_runs};
use xs_base::numbers::THREAD_KIND;
use xs_base::res_id;
use xs_model::{Outcome, Resource, Run, Wait};

pub(crate) fn getst(units: &mut Units, id: u16, slot: u32, k: u8, d: u8, s: u8) -> Outcome
    requires thread { k < THREADS }
    requires target { d < 12 }
    requires source { s < 12 }
    ensures row { (here : Setting) → here.id ≡ id → here.slot ≡ slot → Ends result units.old units.new (threads_row here units.old k (Getst d s)) }
{
    let name = units.reg(k, s);
    match mastered(units, id, k, name) {
        None => illegal(name),
        Some(sync) => {
            let got = get_slave(units, slot, k, sync);
            units.go_on_with(k, d, got);
            Outcome::Done
        }
    }
}

// Waits until all slaves are in, and then they go.
pub(crate) fn msync(units: &mut Units, id: u16, k: u8, s: u8) -> Outcome
    requires thread { k < THREADS }
    requires source { s < 12 }
    ensures row { (here : Setting) → here.id ≡ id → Ends result units.old units.new (threads_row here units.old k (Msync s)) }
{
    match met(units, id, k, s) {
        Err(outcome) => outcome,
        Ok(sync) => {
            set_slaves(units, sync, Run::Going);
            units.go_on(k);
            Outcome::Done
        }
    }
}

// Waits until all slaves are in, and then they are free, and no slaves any more.
pub(crate) fn mjoin(units: &mut Units, id: u16, k: u8, s: u8) -> Outcome
    requires thread { k < THREADS }
    requires source { s < 12 }
    ensures row { (here : Setting) → here.id ≡ id → Ends result units.old units.new (threads_row here units.old k (Mjoin s)) }
{
    match met(units, id, k, s) {
        Err(outcome) => outcome,
        Ok(sync) => {
            free_slaves(units, sync);
            units.go_on(k);
            Outcome::Done
        }
    }
}

// The synchroniser that register s names, whose slaves are all in; else how its master's row ends.
fn met(units: &Units, id: u16, k: u8, s: u8) -> Result<u8, Outcome>
    requires thread { k < THREADS }
    requires source { s < 12 }
    ensures ok { IfOk result (λ n. (here : Setting) → here.id ≡ id → (becomes : CoreRec → ℕ → CoreRec) →
        as_master here units.now k s (when_all_in units.now k becomes) ≡ Done (goes_on (becomes units.now n) k) []) }
    ensures err { IfErr result (λ outcome. (here : Setting) → here.id ≡ id → (becomes : CoreRec → ℕ → CoreRec) →
        Ends outcome units.now units.now (as_master here units.now k s (when_all_in units.now k becomes))) }
    ensures within { IfOk result (λ n. n < SYNCHRONISERS) }
{
    let name = units.reg(k, s);
    match mastered(units, id, k, name) {
        None => Err(illegal(name)),
        Some(sync) if !all_in(units, sync) => Err(Outcome::Pause(Wait::Slaves { sync })),
        Some(sync) => Ok(sync),
    }
}

// The synchroniser that a word names, where thread k is its master.
fn mastered(units: &Units, id: u16, k: u8, name: u32) -> Option<u8>
    ensures value { result ≡ mastered units.now k (resource_named id name) }
    ensures within { IfSome result (λ n. n < SYNCHRONISERS) }
    ensures master { IfSome result (λ n. is_thread k (sync_of units.now n).master ≡ true) }
{
    match resource_named(id, name) {
        Some(Resource::Sync { sync }) if is_master(units, k, sync) => Some(sync),
        _ => None,
    }
}

fn is_master(units: &Units, k: u8, sync: u8) -> bool
    requires { sync < SYNCHRONISERS }
    ensures { result ≡ is_thread k (sync_of units.now sync).master }
{
    match units.syncs.master(sync) {
        None => false,
        Some(master) => master == k,
    }
}

// Gets the lowest free thread as a slave: its identifier, or 0 where none is free.
fn get_slave(units: &mut Units, slot: u32, k: u8, sync: u8) -> u32
    requires thread { k < THREADS }
    requires within { sync < SYNCHRONISERS }
    requires master { is_thread k (sync_of units.old sync).master ≡ true }
    ensures got { (here : Setting) → here.slot ≡ slot → (d : ℕ) → goes_on_with units.new k d result ≡ slave_got here units.old k d sync (thread_to_get units.old) }
{
    match units.get_thread(slot) {
        None => 0,
        Some(j) => {
            let _ = units.syncs.bind(sync, k, j);
            res_id(j, THREAD_KIND)
        }
    }
}

fn all_in(units: &Units, sync: u8) -> bool
    ensures { result ≡ all_in units.now sync }
{
    core_waits::all_in(&units.threads, units.syncs.slaves(sync))
}

// What the slaves of a synchroniser do from now on.
fn set_slaves(units: &mut Units, sync: u8, run: Run)
    ensures { units.new ≡ with_slaves_run units.old sync run }
{
    let slaves = units.syncs.slaves(sync);
    set_runs(&mut units.threads, slaves, run);
}

// The slaves of a synchroniser are free, and no slaves any more; what they enabled is disabled.
fn free_slaves(units: &mut Units, sync: u8)
    requires { sync < SYNCHRONISERS }
    ensures { units.new ≡ slaves_are_freed units.old sync }
{
    let slaves = units.syncs.slaves(sync);
    set_slaves(units, sync, Run::Free);
    drop_threads(&mut units.events, slaves);
    units.syncs.unbind_all(sync);
}
