//! Who is waited for: slaves that are not in, the master of a slave, the owner of a lock.
ghost use Rattle.std.specs.Prelude.{◌≡◌, ◌<◌, Option, option_map, IfOk, slice_get};
ghost use Rattle.xs_model.specs.Waits.{is_in};
ghost use Rattle.look_model.specs.Waits.{is_missing, missing, missing_from, slaves_of, sync_from, owner_in};

use bit_masks::has_bit;
use snap_parts::SnapNode;
use std::alloc::{AllocError, Global};
use sync_locks::{LockState, SyncState};
use xs_model::{Run, Thread};

/// The slaves of a synchroniser that are not in yet. The error is want of memory.
pub(crate) fn missing(
    alloc: Global,
    threads: &[Thread; 8],
    syncs: &[SyncState],
    n: u8,
) -> Result<Vec<u8>, AllocError>
    ensures { IfOk result (λ v. v.items ≡ missing_from (slaves_of (slice_get syncs.now n)) 0 threads.now) }
{
    let slaves = slaves_of(syncs, n);
    let mut missing = Vec::new(alloc);
    for k in 0..8u8 {
        if is_missing(slaves, k, &threads[k as usize]) {
            missing.push(k)?;
        }
    }
    Ok(missing)
}

// The slaves of a synchroniser, as a mask.
fn slaves_of(syncs: &[SyncState], n: u8) -> u8
    ensures { result ≡ slaves_of (slice_get syncs.now n) }
{
    match syncs.get(n as usize) {
        None => 0,
        Some(sync) => sync.slaves,
    }
}

// Whether a thread is a slave and not in yet.
fn is_missing(slaves: u8, k: u8, thread: &Thread) -> bool
    requires { k < 8 }
    ensures { result ≡ is_missing slaves k thread.now }
{
    has_bit(u32::from(slaves), k) && !is_in(thread.run)
}

// Whether a slave is where its synchroniser waits for it.
fn is_in(run: Run) -> bool
    ensures { result ≡ is_in run }
{
    matches!(run, Run::Unstarted | Run::AtSync)
}

/// The first synchroniser of which a thread is a slave, with its number.
pub(crate) fn sync_of(syncs: &[SyncState; 7], k: u8) -> Option<(u8, SyncState)>
    requires { k < 8 }
    ensures { result ≡ sync_from k 0 syncs.now }
{
    for n in 0..7u8 {
        let sync = syncs[n as usize];
        if has_bit(u32::from(sync.slaves), k) {
            return Some((n, sync));
        }
    }
    None
}

/// The thread that owns a lock.
pub(crate) fn owner(locks: &[LockState], n: u8) -> Option<u8>
    ensures { result ≡ owner_in (slice_get locks.now n) }
{
    match locks.get(n as usize) {
        None => None,
        Some(lock) => lock.owner,
    }
}

/// The node at a position, as it was kept.
pub(crate) fn kept(snaps: &[SnapNode], n: u8) -> Option<&SnapNode>
    ensures { option_map (λ s. s.now) result ≡ slice_get snaps.now n }
{
    snaps.get(n as usize)
}
