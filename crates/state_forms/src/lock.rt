//! Locks as bytes.
ghost use Rattle.sync_locks.specs.declared.state.LockState.{LockState};
ghost use Rattle.state_forms.specs.Locks.{lock};

use crate::field::Field;
use byte_forms::{Fault, Reader, write_flag, write_option_byte};
use std::alloc::AllocError;
use sync_locks::LockState;
use xs_base::Text;
use xs_base::numbers::THREADS;

impl Field for LockState {
    ghost Value = { LockState };

    ghost view = { λ state. state };

    ghost form = { lock };

    #[tactic(auto, unfolding(crate::specs::Locks::lock))]
    fn read(from: &mut Reader) -> Result<LockState, Fault> {
        let used = from.read_flag()?;
        let owner = from.read_option_byte_below(u64::from(THREADS))?;
        Ok(LockState { used, owner })
    }

    #[tactic(auto, unfolding(crate::specs::Locks::lock))]
    fn write(&self, out: &mut Text) -> Result<(), AllocError> {
        write_flag(out, self.used)?;
        write_option_byte(out, self.owner)
    }
}
