//! `Sync`, one synchroniser.
ghost use Rattle.std.specs.Prelude.{ℕ, ◌≡◌, ◌<◌, ◌↔◌, false, Some, None, [], OnOk, OnErr, IsErr, length, ◌⊎◌};
ghost use Rattle.xs_base.specs.declared.numbers.TheConstants.{THREADS};
ghost use Rattle.xs_model.specs.Record.{unused_sync};
ghost use Rattle.xs_model.specs.Masks.{in_mask, members};
ghost use Rattle.xs_model.specs.Syncs.{is_thread, is_sync_used, got_sync, is_bound, bound, freed_sync, with_slave};
ghost use Rattle.sync_locks.specs.Syncs.{sync_after};
ghost use Rattle.sync_locks.specs.States.{sync_state, sync_of};

use crate::answers::Bad;
use crate::state::SyncState;
use bit_masks::has_bit;
use std::marker::Model;

/// A synchroniser: its master, where it is in use, and its slaves, a bit for each thread. Contracts see it as a
/// `SyncRec` of `Rattle.xs_model.specs.Record`.
#[derive(Drop)]
pub(crate) struct Sync {
    master: Option<u8>,
    slaves: u8,
}

impl Model for Sync {
    ghost use Rattle.xs_model.specs.Record.{SyncRec};
    ghost use Rattle.xs_model.specs.Masks.{members};

    ghost Value = { SyncRec };

    ghost view = { λ sync. record { master = sync.master; slaves = members sync.slaves } };
}

impl Default for Sync {
    ghost use Rattle.std.specs.Prelude.{◌≡◌};
    ghost use Rattle.xs_model.specs.Record.{unused_sync};

    ghost is_default = { λ sync. sync ≡ unused_sync };

    fn default() -> Self {
        Sync {
            master: None,
            slaves: 0,
        }
    }
}

impl Sync {
    /// Puts it in use, with this master and no slaves.
    pub(crate) fn get(&mut self, master: u8)
        ensures { self.new ≡ got_sync master }
    {
        *self = Sync {
            master: Some(master),
            slaves: 0,
        };
    }

    pub(crate) fn is_used(&self) -> bool
        ensures { result ≡ is_sync_used self.now }
    {
        self.master.is_some()
    }

    pub(crate) fn master(&self) -> Option<u8>
        ensures { result ≡ self.now.master }
    {
        self.master
    }

    /// Its slaves, a bit for each thread.
    pub(crate) fn slaves(&self) -> u8
        ensures value { members result ≡ self.now.slaves }
        ensures bits { (k : ℕ) → k < THREADS → in_mask result k ≡ is_bound k self.now }
    {
        self.slaves
    }

    /// Whether a thread, 0 to 7, is bound to it.
    pub(crate) fn has_slave(&self, thread: u8) -> bool
        requires { thread < THREADS }
        ensures { result ≡ is_bound thread self.now }
    {
        has_bit(u32::from(self.slaves), thread)
    }

    /// Binds a slave, 0 to 7: refused exactly where another thread, or none, is its master.
    pub(crate) fn bind(&mut self, by: u8, slave: u8) -> Result<(), Bad>
        requires { slave < THREADS }
        ensures ok { OnOk result (bound by slave self.old ≡ Some (record self.old { slaves = with_slave slave self.old.slaves })) }
        ensures err { OnErr result (bound by slave self.old ≡ None) }
        ensures after { self.new ≡ sync_after self.old (bound by slave self.old) }
        ensures bad { IsErr result ↔ (is_thread by self.old.master ≡ false) }
    {
        if self.master != Some(by) {
            return Err(Bad);
        }
        self.slaves |= 1 << slave;
        Ok(())
    }

    /// Leaves it with no slaves.
    pub(crate) fn unbind_all(&mut self)
        ensures { self.new ≡ record self.old { slaves = [] } }
    {
        self.slaves = 0;
    }

    /// Puts it out of use: refused exactly where another thread, or none, is its master, or it has slaves.
    pub(crate) fn free(&mut self, by: u8) -> Result<(), Bad>
        ensures ok { OnOk result (freed_sync by self.old ≡ Some unused_sync) }
        ensures err { OnErr result (freed_sync by self.old ≡ None) }
        ensures after { self.new ≡ sync_after self.old (freed_sync by self.old) }
        ensures bad { IsErr result ↔ ((is_thread by self.old.master ≡ false) ⊎ (0 < length self.old.slaves)) }
    {
        if self.master != Some(by) || self.slaves != 0 {
            return Err(Bad);
        }
        self.master = None;
        Ok(())
    }

    /// What a snapshot keeps of it.
    pub(crate) fn state(&self) -> SyncState
        ensures { result ≡ sync_state self.now }
    {
        SyncState {
            used: self.is_used(),
            master: self.master().unwrap_or(0),
            slaves: self.slaves(),
        }
    }

    /// The synchroniser that a snapshot keeps.
    pub(crate) fn of_state(state: SyncState) -> Sync
        ensures { result ≡ sync_of state }
    {
        Sync {
            master: if state.used { Some(state.master) } else { None },
            slaves: state.slaves,
        }
    }
}
