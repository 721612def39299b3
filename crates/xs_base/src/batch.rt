//! `Batch`, entries of a link in a row.
ghost use Rattle.std.specs.Prelude.{◌≡◌, ◌+◌, ◌≤◌, [], ◌∷◌, ◌++◌, length, OnOk, OnErr};

use crate::entry::Entry;
use std::alloc::{AllocError, Global};
use std::marker::Model;

/// Entries of a directed link, in the order in which they were sent. Contracts see them as a `BatchRec` of
/// `Rattle.xs_base.specs.Batch`: beside the entries it has for how many more there is room. See docs/LINKS.md.
#[derive(Drop)]
pub struct Batch {
    entries: Vec<Entry>,
    // How many entries can be added with no memory taken.
    spare: usize,
}

impl Model for Batch {
    ghost use Rattle.std.specs.Prelude.{◌+◌, ◌≤◌, vec_len, vec_capacity};
    ghost use Rattle.xs_base.specs.Batch.{BatchRec};

    ghost Value = { BatchRec };

    ghost view = { λ batch. record { entries = batch.entries.items; spare = batch.spare } };

    ghost invariant = { λ batch. vec_len batch.entries + batch.spare ≤ vec_capacity batch.entries };
}

impl Batch {
    /// No entries yet, and no room. It takes no memory.
    pub fn new(alloc: Global) -> Batch
        ensures { result ≡ record { entries = []; spare = 0 } }
    {
        Batch {
            entries: Vec::new(alloc),
            spare: 0,
        }
    }

    /// Makes room for `n` more entries, so that `add` can take them with no memory. It costs nothing where there is
    /// room already. The error is want of memory, and changes nothing.
    pub fn reserve(&mut self, n: usize) -> Result<(), AllocError>
        ensures room { OnOk result (n ≤ self.new.spare) }
        ensures entries { self.new.entries ≡ self.old.entries }
        ensures spare { self.old.spare ≤ self.new.spare }
        ensures err { OnErr result (self.new ≡ self.old) }
    {
        if n <= self.spare {
            return Ok(());
        }
        self.entries.reserve(n)?;
        self.spare = self.entries.capacity() - self.entries.len();
        Ok(())
    }

    /// Puts an entry after the others, in room that `reserve` made. It takes no memory.
    pub fn add(&mut self, e: Entry)
        requires room { 1 ≤ self.old.spare }
        ensures entries { self.new.entries ≡ self.old.entries ++ e ∷ [] }
        ensures spare { self.new.spare + 1 ≡ self.old.spare }
    {
        // It cannot fail: the room is there.
        let _ = self.entries.push(e);
        self.spare -= 1;
    }

    /// No entries any more, and room for those that were there as well. It takes no memory.
    pub fn clear(&mut self)
        ensures entries { self.new.entries ≡ [] }
        ensures spare { self.new.spare ≡ self.old.spare + length self.old.entries }
    {
        self.spare += self.entries.len();
        self.entries.clear();
    }

    /// The entries, in order.
    pub fn entries(&self) -> &[Entry]
        ensures value { result.now ≡ self.now.entries }
    {
        self.entries.as_slice()
    }
}
