//! `Log`, what a directed link or a wire carries, and its two ends.
ghost use Rattle.std.specs.Prelude.{◌≡◌, ◌≢◌, ◌-◌, ◌*◌, ◌≤◌, Some, None, [], ◌++◌, length, IfOk, IsErr, OnOk, OnErr};
ghost use Rattle.link_logs.specs.Entries.{between, tokens_in, credits_in};
ghost use Rattle.link_logs.specs.Logs.{Writes, Reads, Finds, emptied, looked, new_log, new_write_end, new_read_end};

use crate::answers::{Cause, Got};
use crate::story::Story;
use known_value::Known;
use std::alloc::{AllocError, Global};
use std::marker::Model;
use std::mem;
use xs_base::{Batch, Entry, What};

/// What a directed link or a wire has carried and its end that reads has not read: the entries from slot `base` on and before the
/// published slot, and how many tokens, or levels of a wire, and credits it has carried from slot 0 on. Contracts see a `LogRec` of
/// `Rattle.link_logs.specs.Logs`. It is used by turns by the end that writes and the end that reads. See docs/inside/LOOKAHEAD_INSIDE.md.
#[derive(Drop)]
pub struct Log<S: Story> {
    story: S,
    base: u32,
    published: u32,
    entries: Batch,
    // Tokens, or levels of a wire.
    tokens: u64,
    credits: u64,
    cause: Option<Cause>,
    alloc: Global,
}

impl<S: Story> Model for Log<S> {
    ghost use Rattle.link_logs.specs.Logs.{LogRec, IsWhole};

    ghost Value = { LogRec S.Run };

    ghost view = { λ log. record { run = S.run log.story; number = S.number log.story; base = log.base; published = log.published; entries = log.entries.entries; cause = log.cause } };

    ghost invariant = { λ log. IsWhole (S.entries_at (S.run log.story) (S.number log.story)) log.base log.published log.entries.entries log.tokens log.credits };
}

/// The end of a log that writes. There is one for each log, and it knows up to which slot the log is published, and whether it is
/// closed. Contracts see a `WriteRec` of `Rattle.link_logs.specs.Logs`.
#[derive(Drop)]
pub struct WriteEnd<S: Story> {
    story: Known<S>,
    published: u32,
    cause: Option<Cause>,
}

impl<S: Story> Model for WriteEnd<S> {
    ghost use Rattle.link_logs.specs.Logs.{WriteRec};

    ghost Value = { WriteRec S.Run };

    ghost view = { λ w. record { run = S.run w.story.value; number = S.number w.story.value; published = w.published; cause = w.cause } };
}

impl<S: Story> WriteEnd<S> {
    /// The slot up to which it has published.
    pub fn published(&self) -> u32
        ensures value { result ≡ self.now.published }
    {
        self.published
    }

    /// Why it has closed the log, if it has.
    pub fn cause(&self) -> Option<Cause>
        ensures value { result ≡ self.now.cause }
    {
        self.cause
    }
}

/// The end of a log that reads. There is one for each log. Contracts see a `ReadRec` of `Rattle.link_logs.specs.Logs`.
#[derive(Drop)]
pub struct ReadEnd<S: Story> {
    story: Known<S>,
    got: u32,
    looks: u64,
    shut: bool,
    // No entries, and the buffer that lies in the log next, if one was given back.
    spare: Batch,
}

impl<S: Story> Model for ReadEnd<S> {
    ghost use Rattle.std.specs.Prelude.{◌≡◌, []};
    ghost use Rattle.link_logs.specs.Logs.{ReadRec};

    ghost Value = { ReadRec S.Run };

    ghost view = { λ r. record { run = S.run r.story.value; number = S.number r.story.value; got = r.got; looks = r.looks; shut = r.shut } };

    ghost invariant = { λ r. r.spare.entries ≡ [] };
}

impl<S: Story> ReadEnd<S> {
    /// The slot up to which it has read.
    pub fn got(&self) -> u32
        ensures value { result ≡ self.now.got }
    {
        self.got
    }

    /// How often it has looked, which stays at 2^64 - 1.
    pub fn looks(&self) -> u64
        ensures value { result ≡ self.now.looks }
    {
        self.looks
    }

    /// Whether it has found the log closed.
    pub fn is_shut(&self) -> bool
        ensures value { result ≡ self.now.shut }
    {
        self.shut
    }

    /// Keeps the buffer of a batch of which all was taken. The next look that moves entries out of the log leaves it there in their place.
    /// It takes no memory.
    pub fn give_back(&mut self, batch: Batch)
        requires empty { batch.entries ≡ [] }
        ensures same { self.new ≡ self.old }
    {
        self.spare = batch;
    }
}

impl<S: Story> Log<S> {
    /// The entries that were not read, in the order in which they were sent: from slot `base` on and before the published slot. It
    /// takes no memory.
    pub fn entries(&self) -> &[Entry]
        ensures value { result.now ≡ self.now.entries }
        ensures own { result.now ≡ between (S.entries_at self.now.run self.now.number) self.now.base self.now.published }
        ensures base { self.now.base ≤ self.now.published }
    {
        self.entries.entries()
    }

    /// The slot up to which all entries were read, from which on they are here. It takes no memory.
    pub fn base(&self) -> u32
        ensures value { result ≡ self.now.base }
    {
        self.base
    }

    /// The slot before which all entries are here, or were read. It takes no memory.
    pub fn published(&self) -> u32
        ensures value { result ≡ self.now.published }
    {
        self.published
    }

    /// How many entries are here: at most two for each slot that was published and not read, and none after a look. It takes no memory.
    pub fn held(&self) -> usize
        ensures value { result ≡ length self.now.entries }
        ensures few { result ≤ 2 * (self.now.published - self.now.base) }
    {
        self.entries.entries().len()
    }

    /// How many tokens, or levels of a wire, and how many credits it carried, from slot 0 on and before the published slot, read or not.
    /// Of a wire the first is the number of its entries, and the second 0. It takes no memory.
    pub fn totals(&self) -> (u64, u64)
        ensures tokens { result.0 ≡ tokens_in (between (S.entries_at self.now.run self.now.number) 0 self.now.published) }
        ensures credits { result.1 ≡ credits_in (between (S.entries_at self.now.run self.now.number) 0 self.now.published) }
    {
        (self.tokens, self.credits)
    }

    /// Publishes the entries up to a slot, `upto`, which is not before the published one: those of `batch`, which are the link's or wire's from
    /// the published slot on and before `upto`. The batch is empty then: where nothing was here the two are exchanged, and no memory is taken.
    /// The end has to be this log's, and the log not closed. The error is want of memory, and changes nothing.
    pub fn append(
        &mut self,
        w: &mut WriteEnd<S>,
        upto: u32,
        batch: &mut Batch,
    ) -> Result<(), AllocError>
        requires end { Writes w.old self.old }
        requires open { self.old.cause ≡ None }
        requires on { self.old.published ≤ upto }
        requires own { batch.old.entries ≡ between (S.entries_at self.old.run self.old.number) self.old.published upto }
        ensures log { OnOk result (self.new ≡ record self.old { published = upto; entries = self.old.entries ++ batch.old.entries }) }
        ensures end { OnOk result (w.new ≡ record w.old { published = upto }) }
        ensures batch { OnOk result (batch.new.entries ≡ []) }
        ensures memory { IsErr result → self.old.entries ≢ [] }
        ensures err { OnErr result (self.new ≡ self.old) }
        ensures err_end { OnErr result (w.new ≡ w.old) }
        ensures err_batch { OnErr result (batch.new ≡ batch.old) }
    {
        let (tokens, credits) = self.totals_at(upto, batch);
        put_after(&mut self.entries, batch)?;
        self.tokens = tokens;
        self.credits = credits;
        self.published = upto;
        w.published = upto;
        Ok(())
    }

    // The totals as they are once the entries up to a slot, `upto`, are published, which the batch has.
    fn totals_at(&self, upto: u32, batch: &Batch) -> (u64, u64)
        requires on { self.now.published ≤ upto }
        requires own { batch.now.entries ≡ between (S.entries_at self.now.run self.now.number) self.now.published upto }
        ensures tokens { result.0 ≡ tokens_in (between (S.entries_at self.now.run self.now.number) 0 upto) }
        ensures credits { result.1 ≡ credits_in (between (S.entries_at self.now.run self.now.number) 0 upto) }
    {
        let (tokens, credits) = count(batch.entries());
        (self.tokens + tokens, self.credits + credits)
    }

    /// Reads what the end has not read, which is moved out of the log: that begins at its published slot then. `Nothing` comes exactly
    /// where the end has read up to the published slot and the log is not closed, `Closed` exactly where it has and the log is. Else
    /// there are entries: all from where the end had read to the published slot, and it has read up to that then. The end has to be
    /// this log's. It takes no memory.
    pub fn take(&mut self, r: &mut ReadEnd<S>) -> Got
        requires end { Reads r.old self.old }
        ensures log { self.new ≡ emptied self.old }
        ensures found { Finds (S.entries_at self.old.run self.old.number) self.old r.old.got result }
        ensures end { r.new ≡ looked self.old result r.old }
        ensures more { r.old.looks ≤ r.new.looks }
    {
        let got = self.found(r);
        r.looks = r.looks.saturating_add(1);
        r.shut = r.shut || matches!(got, Got::Closed);
        r.got = self.published;
        got
    }

    // What was not read.
    fn found(&mut self, r: &mut ReadEnd<S>) -> Got
        ensures log { self.new ≡ emptied self.old }
        ensures end { r.new ≡ r.old }
        ensures found { Finds (S.entries_at self.old.run self.old.number) self.old self.old.base result }
    {
        if self.base < self.published {
            return Got::Entries {
                from: self.base,
                to: self.published,
                batch: self.move_out(r),
            };
        }
        if self.cause.is_some() {
            Got::Closed
        } else {
            Got::Nothing {
                published: self.published,
            }
        }
    }

    // Moves the entries out, and the end's spare buffer into their place. Where there are none the two buffers stay where they are.
    fn move_out(&mut self, r: &mut ReadEnd<S>) -> Batch
        ensures log { self.new ≡ emptied self.old }
        ensures end { r.new ≡ r.old }
        ensures own { result.entries ≡ between (S.entries_at self.old.run self.old.number) self.old.base self.old.published }
    {
        self.base = self.published;
        if self.entries.entries().is_empty() {
            return Batch::new(self.alloc);
        }
        let spare = mem::replace(&mut r.spare, Batch::new(self.alloc));
        mem::replace(&mut self.entries, spare)
    }

    /// Closes the log, with the cause. The end has to be this log's, and the log not closed. It takes no memory.
    pub fn close(&mut self, w: &mut WriteEnd<S>, cause: Cause)
        requires end { Writes w.old self.old }
        requires open { self.old.cause ≡ None }
        ensures log { self.new ≡ record self.old { cause = Some cause } }
        ensures end { w.new ≡ record w.old { cause = Some cause } }
    {
        self.cause = Some(cause);
        w.cause = Some(cause);
    }
}

// Puts the entries of a batch after those that are held, and empties it. Where none are held the two are exchanged, and nothing is
// copied. Where the batch has none both stay as they are: a buffer goes only with entries. The error is want of memory, and changes nothing.
fn put_after(held: &mut Batch, batch: &mut Batch) -> Result<(), AllocError>
    ensures held { OnOk result (held.new.entries ≡ held.old.entries ++ batch.old.entries) }
    ensures batch { OnOk result (batch.new.entries ≡ []) }
    ensures memory { IsErr result → held.old.entries ≢ [] }
    ensures err { OnErr result (held.new ≡ held.old) }
    ensures err_batch { OnErr result (batch.new ≡ batch.old) }
{
    if batch.entries().is_empty() {
        return Ok(());
    }
    if held.entries().is_empty() {
        mem::swap(held, batch);
        return Ok(());
    }
    held.reserve(batch.entries().len())?;
    for e in batch.entries() {
        held.add(*e);
    }
    batch.clear();
    Ok(())
}

// How many of the entries are tokens, or levels of a wire, and how many are credits.
fn count(entries: &[Entry]) -> (u64, u64)
    ensures tokens { result.0 ≡ tokens_in entries.now }
    ensures credits { result.1 ≡ credits_in entries.now }
{
    let mut tokens = 0;
    let mut credits = 0;
    for e in entries {
        match e.what {
            What::Token(_) | What::Level(_) => tokens += 1,
            What::Credit => credits += 1,
        }
    }
    (tokens, credits)
}

/// A log of the link or wire that a story names, with nothing in it, and its two ends. The error is want of memory.
pub fn make_log<S: Story>(
    alloc: Global,
    story: S,
) -> Result<(Log<S>, WriteEnd<S>, ReadEnd<S>), AllocError>
    ensures log { IfOk result (λ made. made.0 ≡ new_log (S.run story) (S.number story)) }
    ensures write_end { IfOk result (λ made. made.1 ≡ new_write_end (S.run story) (S.number story)) }
    ensures read_end { IfOk result (λ made. made.2 ≡ new_read_end (S.run story) (S.number story)) }
{
    let w = WriteEnd {
        story: Known::of(&story),
        published: 0,
        cause: None,
    };
    let r = ReadEnd {
        story: Known::of(&story),
        got: 0,
        looks: 0,
        shut: false,
        spare: Batch::new(alloc),
    };
    let log = Log {
        story,
        base: 0,
        published: 0,
        entries: Batch::new(alloc),
        tokens: 0,
        credits: 0,
        cause: None,
        alloc,
    };
    Ok((log, w, r))
}
