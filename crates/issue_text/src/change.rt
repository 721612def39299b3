//! `Change`, a store to a word that is watched.
ghost use Rattle.std.specs.Prelude.{◌≡◌, ◌+◌, ◌-◌, ◌^◌, ◌<◌, ◌≤◌, [], ◌∷◌, ◌++◌, List, ℕ, map, IfSome, OnOk};
ghost use Rattle.xs_base.specs.declared.numbers.TheConstants.{THREADS};
ghost use Rattle.issue_model.specs.Watch.{change_text, word_around};
ghost use Rattle.issue_text.specs.Kept.{Adds};
ghost use Rattle.issue_text.specs.Changes.{store_in, change_line, change_lines, watched_in};
ghost use Rattle.issue_text.specs.Words.{word_of};

use crate::lines::Lines;
use crate::node_slot::{NodeSlot, thread_in};
use crate::stores::{append_store, stored_by};
use crate::words::{Word, kept_word, value_around, word_around};
use core_step::{Core, NextIssue, Told};
use issue_model::{MOST_LINES, Store};
use line_text::append_hex_word;
use std::alloc::AllocError;
use xs_base::Text;

/// What a thread stored to a word that is watched, and what the word was before the slot and is after it.
#[derive(Clone, Copy)]
pub(crate) struct Change {
    pub(crate) thread: u8,
    pub(crate) store: Store,
    pub(crate) was: u32,
    pub(crate) is: u32,
}

impl Lines {
    /// Adds the line of a node's store in a slot, of which this was told, to one of some words, where there was one: they were this before the
    /// slot, and the core is this after it. The error is want of memory.
    pub(crate) fn add_change(
        &mut self,
        at: &NodeSlot,
        told: &Told,
        words: &[Word],
        core: &Core,
    ) -> Result<(), AllocError>
        requires printer { at.now.printer.now ≡ at.now.node.now.image }
        requires thread { IfSome told.now.issue (λ next. next.thread < THREADS) }
        requires count { self.old.count < 2 ^ 64 - 1 }
        ensures lines { OnOk result ((addresses memory : List ℕ) → words.now ≡ map (word_of memory) addresses →
            Adds self.old self.new (watched_in addresses at.now told.now memory core.now.core.memory)) }
        ensures count { OnOk result (self.new.count ≤ self.old.count + 1) }
    {
        let Some(change) = change_of(at, told, words, core) else {
            return Ok(());
        };
        self.put_change(at, change)
    }

    // Adds the line of a store.
    fn put_change(&mut self, at: &NodeSlot, change: Change) -> Result<(), AllocError>
        requires printer { at.now.printer.now ≡ at.now.node.now.image }
        requires thread { change.thread < THREADS }
        requires count { self.old.count < 2 ^ 64 - 1 }
        ensures lines { OnOk result (Adds self.old self.new (change_line at.now change ∷ [])) }
        ensures count { OnOk result (self.new.count ≤ self.old.count + 1) }
    {
        self.count += 1;
        if self.count > MOST_LINES {
            return Ok(());
        }
        append_change(&mut self.text, at, change)?;
        Ok(())
    }
}

// The store of a slot to one of some words, where there was one.
fn change_of(at: &NodeSlot, told: &Told, words: &[Word], core: &Core) -> Option<Change>
    requires thread { IfSome told.now.issue (λ next. next.thread < THREADS) }
    ensures lines { (addresses memory : List ℕ) → words.now ≡ map (word_of memory) addresses →
        change_lines at.now result ≡ watched_in addresses at.now told.now memory core.now.core.memory }
    ensures thread { IfSome result (λ change. change.thread < THREADS) }
{
    let next = told.issue?;
    let store = store_of(at, next, told.traps)?;
    let was = kept_word(words, store.at)?;
    Some(Change {
        thread: next.thread,
        store,
        was,
        is: value_around(core, store.at),
    })
}

// What an issue stored, where it stored something.
fn store_of(at: &NodeSlot, next: NextIssue, traps: bool) -> Option<Store>
    requires thread { next.thread < THREADS }
    ensures { result ≡ store_in at.now next traps }
{
    let k = next.thread;
    stored_by(thread_in(at.before, k), at.done(k, at.ending(next, traps)))
}

// The line of a store.
fn append_change(out: &mut Text, at: &NodeSlot, change: Change) -> Result<(), AllocError>
    requires printer { at.now.printer.now ≡ at.now.node.now.image }
    requires thread { change.thread < THREADS }
    ensures { OnOk result (out.new ≡ out.old ++ change_line at.now change) }
{
    at.append_start(out, change.thread)?;
    append_store(out, change.store)?;
    append_word(out, change)?;
    out.append(b"\n")?;
    Ok(())
}

// `; word W was OLD, is NEW`.
fn append_word(out: &mut Text, change: Change) -> Result<(), AllocError>
    ensures { OnOk result (out.new ≡ out.old ++ change_text (word_around change.store.at) change.was change.is) }
{
    out.append(b"; word ")?;
    append_hex_word(out, word_around(change.store.at))?;
    out.append(b" was ")?;
    append_hex_word(out, change.was)?;
    out.append(b", is ")?;
    append_hex_word(out, change.is)?;
    Ok(())
}
