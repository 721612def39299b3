//! Synchronisers as bytes.
ghost use Rattle.std.specs.Prelude.{ℕ, ◌≡◌, ◌<◌, ◌++◌, ◌&&◌, Bool, List, OnOk};
ghost use Rattle.std.specs.List.{list_any};
ghost use Rattle.xs_base.specs.declared.numbers.TheConstants.{THREADS};
ghost use Rattle.xs_model.specs.Masks.{in_mask, members};
ghost use Rattle.sync_locks.specs.declared.state.SyncState.{SyncState};
ghost use Rattle.byte_forms.specs.Forms.{byte, where_is};
ghost use Rattle.byte_forms.specs.Reading.{Gives};
ghost use Rattle.state_forms.specs.Syncs.{is_slave_of, cannot_be_slave, is_master, are_slaves, sync, syncs};

use bit_masks::has_bit;
use byte_forms::{Fault, Reader, write_byte, write_flag};
use std::alloc::AllocError;
use sync_locks::SyncState;
use xs_base::Text;
use xs_base::numbers::THREADS;

/// Reads the synchronisers of a core on which these threads are not free. A fault is at the first field that is wrong.
pub fn read_syncs(
    from: &mut Reader,
    taken: &[bool; 8],
    states: &mut [SyncState; 7],
) -> Result<(), Fault>
    ensures value { Gives (syncs taken.now) (λ _. states.new) from.old result from.new }
{
    for at in 0..states.len() {
        states[at] = read_sync(from, taken, &states[..at])?;
    }
    Ok(())
}

/// Writes the synchronisers of a core. The error is want of memory.
pub fn write_syncs(out: &mut Text, states: &[SyncState]) -> Result<(), AllocError>
    ensures value { OnOk result ((taken : List Bool) → out.new ≡ out.old ++ (syncs taken).write states.now) }
{
    for state in states {
        write_sync(out, *state)?;
    }
    Ok(())
}

// Reads a synchroniser after those before it.
#[tactic(auto, unfolding(crate::specs::Syncs::sync))]
fn read_sync(from: &mut Reader, taken: &[bool; 8], before: &[SyncState]) -> Result<SyncState, Fault>
    ensures value { Gives (sync taken.now before.now) (λ s. s) from.old result from.new }
{
    let used = from.read_flag()?;
    let master = read_master(from, used)?;
    let slaves = read_slaves(from, taken, before, used)?;
    Ok(SyncState {
        used,
        master,
        slaves,
    })
}

// Writes a synchroniser.
#[tactic(auto, unfolding(crate::specs::Syncs::sync))]
fn write_sync(out: &mut Text, state: SyncState) -> Result<(), AllocError>
    ensures value { OnOk result ((taken : List Bool) (before : List SyncState) → out.new ≡ out.old ++ (sync taken before).write state) }
{
    write_flag(out, state.used)?;
    write_byte(out, state.master)?;
    write_byte(out, state.slaves)
}

fn read_master(from: &mut Reader, used: bool) -> Result<u8, Fault>
    ensures value { Gives (where_is byte (is_master used)) (λ n. n) from.old result from.new }
{
    let left = from.left();
    let master = from.read_byte()?;
    if is_master(used, master) {
        Ok(master)
    } else {
        Err(Fault::Wrong(left))
    }
}

fn read_slaves(
    from: &mut Reader,
    taken: &[bool; 8],
    before: &[SyncState],
    used: bool,
) -> Result<u8, Fault>
    ensures value { Gives (where_is byte (are_slaves taken.now before.now used)) (λ n. n) from.old result from.new }
{
    let left = from.left();
    let slaves = from.read_byte()?;
    if are_slaves(taken, before, used, slaves) {
        Ok(slaves)
    } else {
        Err(Fault::Wrong(left))
    }
}

fn is_master(used: bool, master: u8) -> bool
    ensures { result ≡ is_master used master }
{
    if used { master < THREADS } else { master == 0 }
}

fn are_slaves(taken: &[bool; 8], before: &[SyncState], used: bool, slaves: u8) -> bool
    ensures { result ≡ are_slaves taken.now before.now used slaves }
{
    if used {
        !some_cannot_be_slave(taken, before, slaves)
    } else {
        slaves == 0
    }
}

// Whether a thread of a mask cannot be a slave.
fn some_cannot_be_slave(taken: &[bool; 8], before: &[SyncState], slaves: u8) -> bool
    ensures { result ≡ list_any (cannot_be_slave taken.now before.now) (members slaves) }
{
    for thread in 0..THREADS {
        if is_wrong_slave(taken, before, slaves, thread) {
            return true;
        }
    }
    false
}

// Whether a thread is in a mask, and cannot be a slave.
fn is_wrong_slave(taken: &[bool; 8], before: &[SyncState], slaves: u8, thread: u8) -> bool
    requires { thread < THREADS }
    ensures { result ≡ (in_mask slaves thread && cannot_be_slave taken.now before.now thread) }
{
    has_bit(u32::from(slaves), thread) && (!taken[thread as usize] || is_slave_of(before, thread))
}

// Whether a thread is a slave of one of these.
fn is_slave_of(states: &[SyncState], thread: u8) -> bool
    requires { thread < THREADS }
    ensures { result ≡ is_slave_of states.now thread }
{
    for state in states {
        if has_bit(u32::from(state.slaves), thread) {
            return true;
        }
    }
    false
}
