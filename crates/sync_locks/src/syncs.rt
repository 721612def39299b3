//! `Syncs`, the synchronisers and locks of a core.
ghost use Rattle.std.specs.Prelude.{ℕ, ◌≡◌, ◌≢◌, ◌<◌, ◌↔◌, ◌⊎◌, true, false, Some, None, [], length, map, OnOk, OnErr, IsErr, IsSome, IfSome, IsSomeAnd};
ghost use Rattle.xs_base.specs.declared.numbers.TheConstants.{THREADS, SYNCHRONISERS, LOCKS};
ghost use Rattle.xs_model.specs.Record.{unused_sync, unused_lock};
ghost use Rattle.xs_model.specs.Free.{lowest_free};
ghost use Rattle.xs_model.specs.Masks.{in_mask, members};
ghost use Rattle.xs_model.specs.Syncs.{is_thread, is_sync_used, is_bound, with_slave, sync_with, bound, freed_sync, free_lock, claimed, released, freed_lock};
ghost use Rattle.sync_locks.specs.declared.answers.Claim.TheVariants as claim;
ghost use Rattle.sync_locks.specs.Answers.{claim_answer};
ghost use Rattle.sync_locks.specs.Syncs.{all_unused, sync_at, lock_at, with_got_sync, with_got_lock, with_sync_at, syncs_after, locks_after, locks_after_claim};
ghost use Rattle.sync_locks.specs.States.{sync_state, sync_of, lock_state, lock_of, AreSyncStates, AreLockStates};

use crate::answers::{Bad, Claim};
use crate::lock::Lock;
use crate::state::{LockState, SyncState};
use crate::sync::Sync;
use std::marker::Model;
use xs_base::numbers::{LOCKS, SYNCHRONISERS};

/// A core's 7 synchronisers and 4 locks, each numbered from 0. A synchroniser in use has a master, the thread that got
/// it, and slaves, the threads bound to it. A lock in use may have an owner. Contracts see the lists of their
/// `SyncRec`s and `LockRec`s. See docs/THREADS.md.
#[derive(Drop)]
pub struct Syncs {
    syncs: [Sync; 7],
    locks: [Lock; 4],
}

impl Model for Syncs {
    ghost use Rattle.std.specs.Prelude.{◌≡◌, length};
    ghost use Rattle.sync_locks.specs.Syncs.{SyncsRec};

    ghost Value = { SyncsRec };

    ghost view = { λ core. record { syncs = core.syncs; locks = core.locks } };

    ghost invariant = { λ core. (length core.syncs ≡ 7) × (length core.locks ≡ 4) };
}

impl Syncs {
    /// The synchronisers and locks at the start: none is in use.
    pub fn new() -> Syncs
        ensures unused { result ≡ all_unused }
    {
        Syncs {
            syncs: Default::default(),
            locks: Default::default(),
        }
    }

    /// Gets the synchroniser with the lowest number that is not in use, for thread `master`, 0 to 7: it is in use
    /// then, with this master and no slaves. `None` comes exactly where all 7 are in use. See docs/THREADS.md.
    pub fn get_sync(&mut self, master: u8) -> Option<u8>
        requires { master < THREADS }
        ensures lowest { result ≡ lowest_free is_sync_used self.old.syncs 0 }
        ensures got { self.new ≡ with_got_sync self.old master (lowest_free is_sync_used self.old.syncs 0) }
        ensures within { IfSome result (λ n. n < SYNCHRONISERS) }
        ensures none { result ≡ None ↔ ((n : ℕ) → n < SYNCHRONISERS → is_sync_used (sync_at self.old.syncs n) ≡ true) }
    {
        let free = first_free_sync(&self.syncs);
        if let Some(n) = free {
            self.syncs[n as usize].get(master);
        }
        free
    }

    /// Gets the lock with the lowest number that is not in use: it is in use then, and nobody owns it but where a state said otherwise (`of_state`). `None`
    /// comes exactly where all 4 are in use. See docs/THREADS.md.
    pub fn get_lock(&mut self) -> Option<u8>
        ensures lowest { result ≡ lowest_free (λ lock. lock.used) self.old.locks 0 }
        ensures got { self.new ≡ with_got_lock self.old (lowest_free (λ lock. lock.used) self.old.locks 0) }
        ensures within { IfSome result (λ n. n < LOCKS) }
        ensures none { result ≡ None ↔ ((n : ℕ) → n < LOCKS → (lock_at self.old.locks n).used ≡ true) }
    {
        let free = first_free_lock(&self.locks);
        if let Some(n) = free {
            self.locks[n as usize].get();
        }
        free
    }

    /// Binds thread `slave`, 0 to 7, to synchroniser `sync`, 0 to 6, for thread `by`, 0 to 7. `Bad` comes exactly where
    /// `by` is not its master, and then nothing changes. See docs/THREADS.md.
    pub fn bind(&mut self, sync: u8, by: u8, slave: u8) -> Result<(), Bad>
        requires sync { sync < SYNCHRONISERS }
        requires by { by < THREADS }
        requires slave { slave < THREADS }
        ensures ok { OnOk result (bound by slave (sync_at self.old.syncs sync) ≡ Some (record (sync_at self.old.syncs sync) { slaves = with_slave slave (sync_at self.old.syncs sync).slaves })) }
        ensures err { OnErr result (bound by slave (sync_at self.old.syncs sync) ≡ None) }
        ensures after { self.new ≡ syncs_after self.old sync (bound by slave (sync_at self.old.syncs sync)) }
        ensures unchanged { OnErr result (self.new ≡ self.old) }
        ensures bad { IsErr result ↔ (is_thread by (sync_at self.old.syncs sync).master ≡ false) }
    {
        self.syncs[sync as usize].bind(by, slave)
    }

    /// The slaves of synchroniser `sync`, bit k for thread k. With a `sync` of 7 or more it speaks of one without
    /// slaves.
    pub fn slaves(&self, sync: u8) -> u8
        ensures value { members result ≡ (sync_at self.now.syncs sync).slaves }
        ensures bits { (k : ℕ) → k < THREADS → in_mask result k ≡ is_bound k (sync_at self.now.syncs sync) }
    {
        if sync < SYNCHRONISERS {
            self.syncs[sync as usize].slaves()
        } else {
            0
        }
    }

    /// The master of synchroniser `sync`, 0 to 6: `None` exactly where it is not in use.
    pub fn master(&self, sync: u8) -> Option<u8>
        requires { sync < SYNCHRONISERS }
        ensures value { result ≡ (sync_at self.now.syncs sync).master }
        ensures none { result ≡ None ↔ (is_sync_used (sync_at self.now.syncs sync) ≡ false) }
    {
        self.syncs[sync as usize].master()
    }

    /// The synchroniser that thread `slave`, 0 to 7, is bound to, the lowest: `None` exactly where it is no slave.
    pub fn sync_of(&self, slave: u8) -> Option<u8>
        requires { slave < THREADS }
        ensures lowest { result ≡ sync_with slave self.now.syncs }
        ensures within { IfSome result (λ n. n < SYNCHRONISERS) }
        ensures none { result ≡ None ↔ ((n : ℕ) → n < SYNCHRONISERS → is_bound slave (sync_at self.now.syncs n) ≡ false) }
        ensures count { length self.now.syncs ≡ SYNCHRONISERS }
    {
        first_with_slave(&self.syncs, slave)
    }

    /// Leaves synchroniser `sync`, 0 to 6, with no slaves; its master stays. See docs/THREADS.md.
    pub fn unbind_all(&mut self, sync: u8)
        requires { sync < SYNCHRONISERS }
        ensures after { self.new ≡ with_sync_at self.old sync (record (sync_at self.old.syncs sync) { slaves = [] }) }
    {
        self.syncs[sync as usize].unbind_all();
    }

    /// Puts synchroniser `sync`, 0 to 6, out of use, for thread `by`, 0 to 7. `Bad` comes exactly where `by` is not its
    /// master or it has slaves, and then nothing changes. See docs/THREADS.md.
    pub fn free_sync(&mut self, sync: u8, by: u8) -> Result<(), Bad>
        requires sync { sync < SYNCHRONISERS }
        requires by { by < THREADS }
        ensures ok { OnOk result (freed_sync by (sync_at self.old.syncs sync) ≡ Some unused_sync) }
        ensures err { OnErr result (freed_sync by (sync_at self.old.syncs sync) ≡ None) }
        ensures after { self.new ≡ syncs_after self.old sync (freed_sync by (sync_at self.old.syncs sync)) }
        ensures unchanged { OnErr result (self.new ≡ self.old) }
        ensures bad { IsErr result ↔ ((is_thread by (sync_at self.old.syncs sync).master ≡ false) ⊎ (0 < length (sync_at self.old.syncs sync).slaves)) }
    {
        self.syncs[sync as usize].free(by)
    }

    /// The owner of lock `lock`: `None` exactly where it has none. With a `lock` of 4 or more it speaks of one without
    /// an owner.
    pub fn owner(&self, lock: u8) -> Option<u8>
        ensures value { result ≡ (lock_at self.now.locks lock).owner }
        ensures count { length self.now.locks ≡ LOCKS }
    {
        if lock < LOCKS {
            self.locks[lock as usize].owner()
        } else {
            None
        }
    }

    /// Thread `by`, 0 to 7, would own lock `lock`, 0 to 3: where it is in use and nobody owns it, the thread owns it
    /// then. `Held` comes exactly where it is in use and another thread owns it, and `Bad` exactly where it is not in use or
    /// `by` owns it; then nothing changes. See docs/THREADS.md.
    pub fn claim(&mut self, lock: u8, by: u8) -> Claim
        requires lock { lock < LOCKS }
        requires by { by < THREADS }
        ensures answer { result ≡ claim_answer (claimed by (lock_at self.old.locks lock)) }
        ensures after { self.new ≡ locks_after_claim self.old lock (claimed by (lock_at self.old.locks lock)) }
        ensures unchanged { result ≢ claim.Got → self.new ≡ self.old }
        ensures got { (result ≡ claim.Got) ↔ (((lock_at self.old.locks lock).used ≡ true) × ((lock_at self.old.locks lock).owner ≡ None)) }
        ensures held { (result ≡ claim.Held) ↔ (((lock_at self.old.locks lock).used ≡ true) × IsSomeAnd (lock_at self.old.locks lock).owner (λ owner. owner ≢ by)) }
        ensures bad { (result ≡ claim.Bad) ↔ (((lock_at self.old.locks lock).used ≡ false) ⊎ ((lock_at self.old.locks lock).owner ≡ Some by)) }
    {
        self.locks[lock as usize].claim(by)
    }

    /// Thread `by`, 0 to 7, gives lock `lock`, 0 to 3, up: it is in use then, and nobody owns it. `Bad` comes exactly
    /// where it is not in use or `by` is not its owner, and then nothing changes. See docs/THREADS.md.
    pub fn release(&mut self, lock: u8, by: u8) -> Result<(), Bad>
        requires lock { lock < LOCKS }
        requires by { by < THREADS }
        ensures ok { OnOk result (released by (lock_at self.old.locks lock) ≡ Some free_lock) }
        ensures err { OnErr result (released by (lock_at self.old.locks lock) ≡ None) }
        ensures after { self.new ≡ locks_after self.old lock (released by (lock_at self.old.locks lock)) }
        ensures unchanged { OnErr result (self.new ≡ self.old) }
        ensures bad { IsErr result ↔ (((lock_at self.old.locks lock).used ≡ false) ⊎ (is_thread by (lock_at self.old.locks lock).owner ≡ false)) }
    {
        self.locks[lock as usize].release(by)
    }

    /// Puts lock `lock`, 0 to 3, out of use. `Bad` comes exactly where it is not in use or a thread owns it, and then
    /// nothing changes. See docs/THREADS.md.
    pub fn free_lock(&mut self, lock: u8) -> Result<(), Bad>
        requires { lock < LOCKS }
        ensures ok { OnOk result (freed_lock (lock_at self.old.locks lock) ≡ Some unused_lock) }
        ensures err { OnErr result (freed_lock (lock_at self.old.locks lock) ≡ None) }
        ensures after { self.new ≡ locks_after self.old lock (freed_lock (lock_at self.old.locks lock)) }
        ensures unchanged { OnErr result (self.new ≡ self.old) }
        ensures bad { IsErr result ↔ (((lock_at self.old.locks lock).used ≡ false) ⊎ IsSome (lock_at self.old.locks lock).owner) }
    {
        self.locks[lock as usize].free()
    }

    /// What a snapshot keeps of the synchronisers and of the locks, each by their numbers. It takes no memory. See
    /// docs/SNAPSHOTS.md.
    pub fn state(&self) -> ([SyncState; 7], [LockState; 4])
        ensures syncs { result.0 ≡ map sync_state self.now.syncs }
        ensures locks { result.1 ≡ map lock_state self.now.locks }
    {
        let syncs = self.syncs.each_ref().map(Sync::state);
        let locks = self.locks.each_ref().map(Lock::state);
        (syncs, locks)
    }

    /// The synchronisers and locks that a snapshot keeps, each by their numbers. It takes no memory. See docs/SNAPSHOTS.md.
    pub fn of_state(syncs: &[SyncState; 7], locks: &[LockState; 4]) -> Syncs
        requires syncs { AreSyncStates syncs.now }
        requires locks { AreLockStates locks.now }
        ensures value { result ≡ record { syncs = map sync_of syncs.now; locks = map lock_of locks.now } }
    {
        Syncs {
            syncs: syncs.map(Sync::of_state),
            locks: locks.map(Lock::of_state),
        }
    }
}

/// The lowest synchroniser that is not in use.
fn first_free_sync(syncs: &[Sync; 7]) -> Option<u8>
    ensures lowest { result ≡ lowest_free is_sync_used syncs.now 0 }
    ensures within { IfSome result (λ n. n < SYNCHRONISERS) }
{
    for n in 0..SYNCHRONISERS {
        if !syncs[n as usize].is_used() {
            return Some(n);
        }
    }
    None
}

/// The lowest lock that is not in use.
fn first_free_lock(locks: &[Lock; 4]) -> Option<u8>
    ensures lowest { result ≡ lowest_free (λ lock. lock.used) locks.now 0 }
    ensures within { IfSome result (λ n. n < LOCKS) }
{
    for n in 0..LOCKS {
        if !locks[n as usize].is_used() {
            return Some(n);
        }
    }
    None
}

/// The lowest synchroniser to which a thread, 0 to 7, is bound.
fn first_with_slave(syncs: &[Sync; 7], slave: u8) -> Option<u8>
    requires { slave < THREADS }
    ensures lowest { result ≡ sync_with slave syncs.now }
    ensures within { IfSome result (λ n. n < SYNCHRONISERS) }
{
    for n in 0..SYNCHRONISERS {
        if syncs[n as usize].has_slave(slave) {
            return Some(n);
        }
    }
    None
}
