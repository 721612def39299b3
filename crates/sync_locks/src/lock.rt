//! `Lock`, one lock.
ghost use Rattle.std.specs.Prelude.{◌≡◌, ◌≢◌, ◌↔◌, true, false, Some, None, OnOk, OnErr, IsErr, IsSome, IsSomeAnd, ◌⊎◌};
ghost use Rattle.xs_model.specs.Record.{unused_lock};
ghost use Rattle.xs_model.specs.Syncs.{is_thread, got_lock, free_lock, claimed, released, freed_lock};
ghost use Rattle.sync_locks.specs.declared.answers.Claim.TheVariants as claim;
ghost use Rattle.sync_locks.specs.Answers.{claim_answer};
ghost use Rattle.sync_locks.specs.Syncs.{lock_after, lock_after_claim};
ghost use Rattle.sync_locks.specs.States.{lock_state, lock_of};

use crate::answers::{Bad, Claim};
use crate::state::LockState;
use std::marker::Model;

/// A lock: whether it is in use, and its owner, if it has one. One that a snapshot gave may have an owner though it is not in
/// use. Contracts see it as a `LockRec` of `Rattle.xs_model.specs.Record`.
#[derive(Drop)]
pub(crate) struct Lock {
    used: bool,
    owner: Option<u8>,
}

impl Model for Lock {
    ghost use Rattle.xs_model.specs.Record.{LockRec};

    ghost Value = { LockRec };

    ghost view = { λ lock. record { used = lock.used; owner = lock.owner } };
}

impl Default for Lock {
    ghost use Rattle.std.specs.Prelude.{◌≡◌};
    ghost use Rattle.xs_model.specs.Record.{unused_lock};

    ghost is_default = { λ lock. lock ≡ unused_lock };

    fn default() -> Self {
        Lock {
            used: false,
            owner: None,
        }
    }
}

impl Lock {
    /// Puts it in use; its owner stays.
    pub(crate) fn get(&mut self)
        ensures { self.new ≡ got_lock self.old }
    {
        self.used = true;
    }

    pub(crate) fn is_used(&self) -> bool
        ensures { result ≡ self.now.used }
    {
        self.used
    }

    pub(crate) fn owner(&self) -> Option<u8>
        ensures { result ≡ self.now.owner }
    {
        self.owner
    }

    /// A thread would own it.
    pub(crate) fn claim(&mut self, by: u8) -> Claim
        ensures answer { result ≡ claim_answer (claimed by self.old) }
        ensures after { self.new ≡ lock_after_claim self.old (claimed by self.old) }
        ensures got { (result ≡ claim.Got) ↔ ((self.old.used ≡ true) × (self.old.owner ≡ None)) }
        ensures held { (result ≡ claim.Held) ↔ ((self.old.used ≡ true) × IsSomeAnd self.old.owner (λ owner. owner ≢ by)) }
        ensures bad { (result ≡ claim.Bad) ↔ ((self.old.used ≡ false) ⊎ (self.old.owner ≡ Some by)) }
    {
        if !self.used {
            return Claim::Bad;
        }
        match self.owner {
            None => {
                self.owner = Some(by);
                Claim::Got
            }
            Some(owner) if owner == by => Claim::Bad,
            Some(_) => Claim::Held,
        }
    }

    /// Its owner gives it up: refused exactly where it is not in use, or the thread is not its owner.
    pub(crate) fn release(&mut self, by: u8) -> Result<(), Bad>
        ensures ok { OnOk result (released by self.old ≡ Some free_lock) }
        ensures err { OnErr result (released by self.old ≡ None) }
        ensures after { self.new ≡ lock_after self.old (released by self.old) }
        ensures bad { IsErr result ↔ ((self.old.used ≡ false) ⊎ (is_thread by self.old.owner ≡ false)) }
    {
        if !self.used || self.owner != Some(by) {
            return Err(Bad);
        }
        self.owner = None;
        Ok(())
    }

    /// Puts it out of use: refused exactly where it is not in use, or a thread owns it.
    pub(crate) fn free(&mut self) -> Result<(), Bad>
        ensures ok { OnOk result (freed_lock self.old ≡ Some unused_lock) }
        ensures err { OnErr result (freed_lock self.old ≡ None) }
        ensures after { self.new ≡ lock_after self.old (freed_lock self.old) }
        ensures bad { IsErr result ↔ ((self.old.used ≡ false) ⊎ IsSome self.old.owner) }
    {
        if !self.used || self.owner.is_some() {
            return Err(Bad);
        }
        self.used = false;
        Ok(())
    }

    /// What a snapshot keeps of it.
    pub(crate) fn state(&self) -> LockState
        ensures { result ≡ lock_state self.now }
    {
        LockState {
            used: self.used,
            owner: self.owner,
        }
    }

    /// The lock that a snapshot keeps.
    pub(crate) fn of_state(state: LockState) -> Lock
        ensures { result ≡ lock_of state }
    {
        Lock {
            used: state.used,
            owner: state.owner,
        }
    }
}
