//! `PinChanges`, the changes of one pin.
ghost use Rattle.std.specs.Prelude.{◌≡◌, ◌≤◌, ◌<◌, ◌∷◌, [], ◌++◌, ◌==◌, length, take, filter, OnOk};
ghost use Rattle.std.specs.List.{list_any};
ghost use Rattle.pin_scripts.specs.declared.line.Change.{Change};
ghost use Rattle.pin_scripts.specs.Script.{is_at_most, shown};
ghost use Rattle.pin_scripts.specs.Facts.{IsPast, IsCountUntil, slot_of_change};

use crate::Change;
use std::alloc::{AllocError, Global};
use std::marker::Model;

/// The changes of one pin by slot. Contracts see their list.
#[derive(Drop)]
pub(crate) struct PinChanges {
    changes: Vec<Change>,
}

impl Model for PinChanges {
    ghost use Rattle.std.specs.Prelude.{List};
    ghost use Rattle.pin_scripts.specs.declared.line.Change.{Change};
    ghost use Rattle.pin_scripts.specs.Facts.{slot_of_change};
    ghost use Rattle.pin_scripts.specs.Script.{NeverFall};

    ghost Value = { List Change };

    ghost view = { λ p. p.changes.items };

    ghost invariant = { λ p. NeverFall slot_of_change 0 p.changes.items };
}

impl PinChanges {
    /// No changes. It takes no memory.
    pub(crate) fn new(alloc: Global) -> PinChanges
        ensures { result ≡ [] }
    {
        PinChanges {
            changes: Vec::new(alloc),
        }
    }

    /// Adds a change in the slot of the last one or after it. The error is want of memory.
    pub(crate) fn add(&mut self, change: Change) -> Result<(), AllocError>
        requires { IsPast slot_of_change change.slot self.old }
        ensures { OnOk result (self.new ≡ self.old ++ change ∷ []) }
    {
        self.changes.push(change)?;
        Ok(())
    }

    /// Whether the pin changes in a slot, after which no change comes.
    pub(crate) fn changes_in(&self, slot: u32) -> bool
        requires { IsPast slot_of_change slot self.now }
        ensures { result ≡ list_any (λ (c : Change). c.slot == slot) self.now }
    {
        let count = self.changes.len();
        count > 0 && self.changes[count - 1].slot == slot
    }

    /// What the pin shows in a slot.
    pub(crate) fn shown(&self, slot: u32) -> u32
        ensures { result ≡ shown self.now slot }
    {
        let until = self.count_until(slot);
        if until == 0 {
            0
        } else {
            self.changes[until - 1].value
        }
    }

    // How many changes come in the slot or before it.
    fn count_until(&self, slot: u32) -> usize
        ensures within { result ≤ length self.now }
        ensures value { IsCountUntil slot_of_change slot self.now result }
    {
        self.changes.partition_point(|change| change.slot <= slot)
    }
}
