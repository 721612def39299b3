//! `Cell`, a log that two threads use by turns. See docs/LOOKAHEAD.md.
ghost use Rattle.std.specs.Prelude.{◌≡◌, ◌≤◌, ◌+◌, [], Some, None, true, IfOk, OnOk, OnErr};
ghost use Rattle.link_logs.specs.Entries.{between};
ghost use Rattle.link_logs.specs.declared.answers.Got.TheVariants.{Closed};
ghost use Rattle.link_logs.specs.Logs.{new_write_end, new_read_end};
ghost use Rattle.log_cells.specs.Plays.{IsSized, IsJoined, AgreesWith};
ghost use Rattle.log_cells.specs.Ends.{WritesTo, ReadsOf, StaysWriter, StaysReader, LooksAt, Gives, WaitsFor, IsNews};
ghost use Rattle.log_cells.specs.Tries.{Publishes, Takes, Closes};

use crate::answers::{Sent, TryGot};
use crate::ends::{ReadEnd, WriteEnd};
use crate::plays::TwoEnds;
use crate::steps::{self, Raised};
use crate::view::{Board, Place};
use link_logs::{Cause, Got, Log, Story};
use std::alloc::{AllocError, Global};
use std::hint::spin_loop;
use std::marker::Model;
use std::sync::Wait;
use std::sync::atomic::{AtomicBool, Ordering};
use std::thread::yield_now;
use xs_base::Batch;

// How often an end that waits for news looks for them, and lets go of its processor after each look, before it sleeps.
const MOST_LOOKS: u32 = 64;

/// The log of a directed link, which its two ends use by turns, each from a thread of its own. Contracts see a `CellRec` of
/// `Rattle.log_cells.specs.Ends`. See docs/LOOKAHEAD.md.
#[derive(Drop)]
pub struct Cell<S: Story> {
    pub(crate) table: Board<S>,
    // Whether the end that reads may be asleep: only then a publish has to wake it. Nothing else hangs on it.
    asleep: AtomicBool,
}

impl<S: Story> Model for Cell<S> {
    ghost use Rattle.log_cells.specs.Ends.{CellRec};

    ghost Value = { CellRec S.Run };

    ghost use Rattle.log_cells.specs.Plays.{IsSized};

    ghost view = { λ c. record { table = c.table.shared.table_id; run = c.table.shared.key.run; number = c.table.shared.key.number } };

    ghost invariant = { λ c. IsSized c.table.shared.table_id };
}

/// A cell with a log of the link that a story names, with nothing in it, and its two ends. The error is want of memory.
pub fn make_cell<S: Story + Drop>(
    alloc: Global,
    story: S,
) -> Result<(Cell<S>, WriteEnd<S>, ReadEnd<S>), AllocError>
    ensures cell { IfOk result (λ made. (made.0.run ≡ S.run story) × (made.0.number ≡ S.number story)) }
    ensures write_end { IfOk result (λ made. made.1 ≡ record { table = made.0.table; end = new_write_end (S.run story) (S.number story); refused = 0; raised = 0 }) }
    ensures read_end { IfOk result (λ made. made.2 ≡ record { table = made.0.table; end = new_read_end (S.run story) (S.number story); refused = 0; turns = [] }) }
{
    let (log, write_end, read_end) = link_logs::make_log(alloc, story)?;
    let mut slots = Vec::new(alloc);
    slots.push(log)?;
    let Ok((table, mut seat)) = Board::<S>::new(alloc, &[0, 0], slots, &write_end) else {
        return Err(AllocError);
    };
    let read_seat = table.shared.split_seat::<TwoEnds>(&mut seat);
    let w = WriteEnd {
        seat,
        end: write_end,
    };
    let r = ReadEnd {
        seat: read_seat,
        end: read_end,
        heard: 0,
    };
    let asleep = AtomicBool::new(false);
    Ok((Cell { table, asleep }, w, r))
}

impl<S: Story> Cell<S> {
    /// Waits for its turn, and publishes the link's entries up to a slot, `upto`, which is not before the published one: those of
    /// `batch`, which are the link's from the published slot on and before `upto`. The batch is empty then. The end has to be this
    /// cell's, and the log not closed. The news are raised once, and who waits for them is woken. The error is want of memory, and changes
    /// nothing else.
    pub fn publish<R: Wait>(
        &self,
        rt: &R,
        w: &mut WriteEnd<S>,
        upto: u32,
        batch: &mut Batch,
    ) -> Result<(), AllocError>
        requires cell { WritesTo w.old self.now }
        requires open { w.old.end.cause ≡ None }
        requires on { w.old.end.published ≤ upto }
        requires own { batch.old.entries ≡ between (S.entries_at w.old.end.run w.old.end.number) w.old.end.published upto }
        ensures stays { StaysWriter w.old w.new }
        ensures end { OnOk result (w.new.end ≡ record w.old.end { published = upto }) }
        ensures batch { OnOk result (batch.new.entries ≡ []) }
        ensures err_end { OnErr result (w.new.end ≡ w.old.end) }
        ensures err_batch { OnErr result (batch.new ≡ batch.old) }
        ensures raised { w.new.raised ≡ w.old.raised + 1 }
    {
        for _ in rt.forever() {
            match self.try_publish(w, upto, batch) {
                Sent::Done => return Ok(()),
                Sent::Busy => yield_now(),
                Sent::Memory => return Err(AllocError),
            }
        }
        unreachable!()
    }

    /// As `publish`, but it waits for nobody: it claims the turn once. `Busy` comes exactly where the turn was held, and changes nothing, but that
    /// the end was refused once more. Where it had the turn, the news are raised once, and who waits for them
    /// is woken.
    pub fn try_publish(&self, w: &mut WriteEnd<S>, upto: u32, batch: &mut Batch) -> Sent
        requires cell { WritesTo w.old self.now }
        requires open { w.old.end.cause ≡ None }
        requires on { w.old.end.published ≤ upto }
        requires own { batch.old.entries ≡ between (S.entries_at w.old.end.run w.old.end.number) w.old.end.published upto }
        ensures publishes { Publishes w.old batch.old upto result w.new batch.new }
    {
        let top = &self.table.shared;
        if !steps::claim_to_write(top, &mut w.seat, &w.end) {
            return Sent::Busy;
        }
        let answer = steps::append(top, &mut w.seat, &mut w.end, upto, batch);
        steps::give_written(top, &mut w.seat, &w.end);
        let news = steps::raise(top, &mut w.seat, &w.end);
        self.wake(news);
        match answer {
            Ok(()) => Sent::Done,
            Err(AllocError) => Sent::Memory,
        }
    }

    /// Waits for its turn, and reads what the end has not read. `Nothing` comes exactly where it has read up to the published slot and
    /// the log is not closed, `Closed` exactly where it has and the log is. Else there are entries: all from where the end had read to
    /// the published slot, which are moved out of the log, and it has read up to that then. An end that had found its log closed finds
    /// it closed again. The end has to be this cell's. It takes no memory.
    pub fn poll<R: Wait>(&self, rt: &R, r: &mut ReadEnd<S>) -> Got
        requires cell { ReadsOf r.old self.now }
        ensures stays { StaysReader r.old r.new }
        ensures log { LooksAt (S.entries_at r.old.end.run r.old.end.number) r.old.end result r.new.end }
        ensures gives { Gives (S.entries_at r.old.end.run r.old.end.number) r.old.end result r.new.end }
        ensures shut { r.old.end.shut ≡ true → result ≡ Closed }
        ensures more { r.old.end.looks ≤ r.new.end.looks }
    {
        for _ in rt.forever() {
            match self.try_take(r) {
                TryGot::Got(found) => return found,
                TryGot::Busy => yield_now(),
            }
        }
        unreachable!()
    }

    /// As `poll`, but it waits for nobody: it claims the turn once. `Busy` comes exactly where the turn was held, and changes nothing, but that
    /// the end was refused once more. Else it looks at the log as this turn found it: `Nothing` comes exactly where that log is open and was read
    /// up to its published slot. It takes no memory.
    pub fn try_take(&self, r: &mut ReadEnd<S>) -> TryGot
        requires cell { ReadsOf r.old self.now }
        ensures takes { Takes (S.entries_at r.old.end.run r.old.end.number) r.old result r.new }
    {
        self.take_after(r, steps::news(&self.table.shared))
    }

    // `try_take`, before which the news had been raised so often: those after it are not heard of yet.
    pub(crate) fn take_after(&self, r: &mut ReadEnd<S>, news: u32) -> TryGot
        requires cell { ReadsOf r.old self.now }
        ensures takes { Takes (S.entries_at r.old.end.run r.old.end.number) r.old result r.new }
    {
        let top = &self.table.shared;
        if !steps::claim_to_read(top, &mut r.seat, &r.end) {
            return TryGot::Busy;
        }
        let found = steps::take(top, &mut r.seat, &mut r.end);
        steps::give_taken(top, &mut r.seat, &r.end);
        r.heard = heard_after(r.heard, news, &found);
        TryGot::Got(found)
    }

    /// Waits for its turn, and closes the log, with the cause. The end has to be this cell's, and the log not closed. The news are
    /// raised once, and who waits for them is woken. It takes no memory.
    pub fn end<R: Wait>(&self, rt: &R, w: &mut WriteEnd<S>, cause: Cause)
        requires cell { WritesTo w.old self.now }
        requires open { w.old.end.cause ≡ None }
        ensures stays { StaysWriter w.old w.new }
        ensures end { w.new.end ≡ record w.old.end { cause = Some cause } }
        ensures raised { w.new.raised ≡ w.old.raised + 1 }
    {
        for _ in rt.forever() {
            if self.try_end(w, cause) {
                return;
            }
            yield_now();
        }
    }

    /// As `end`, but it waits for nobody: it claims the turn once, and tells whether it had it. Else the turn was held, and nothing is changed, but
    /// that the end was refused once more. It takes no memory.
    pub fn try_end(&self, w: &mut WriteEnd<S>, cause: Cause) -> bool
        requires cell { WritesTo w.old self.now }
        requires open { w.old.end.cause ≡ None }
        ensures closes { Closes w.old cause result w.new }
    {
        let top = &self.table.shared;
        if !steps::claim_to_write(top, &mut w.seat, &w.end) {
            return false;
        }
        steps::close(top, &mut w.seat, &mut w.end, cause);
        steps::give_written(top, &mut w.seat, &w.end);
        let news = steps::raise(top, &mut w.seat, &w.end);
        self.wake(news);
        true
    }

    /// Polls until there is something, and waits for news in between: it looks for them a number of times, and then sleeps. It never
    /// answers `Nothing`. An end that had found its log closed finds it closed again. The end has to be this cell's. It takes no memory.
    pub fn wait_news<R: Wait>(&self, rt: &R, r: &mut ReadEnd<S>) -> Got
        requires cell { ReadsOf r.old self.now }
        ensures stays { StaysReader r.old r.new }
        ensures news { IsNews result }
        ensures waits { WaitsFor (S.entries_at r.old.end.run r.old.end.number) r.old.end result r.new.end }
        ensures shut { r.old.end.shut ≡ true → result ≡ Closed }
        ensures more { r.old.end.looks ≤ r.new.end.looks }
    {
        for _ in rt.forever() {
            self.await_news(rt, r, 0);
            match self.poll(rt, r) {
                Got::Nothing { published: _ } => {}
                got => return got,
            }
        }
        unreachable!()
    }

    /// Waits until a poll may find something: it looks for news a number of times, without the turn, and then sleeps until there are. In the
    /// first looks, as many as `eager` says, it keeps its processor. It
    /// returns at once where there were news since the end last found nothing, and where it has found its log closed. What there is, a
    /// poll tells. The end has to be this cell's.
    pub fn await_news<R: Wait>(&self, rt: &R, r: &ReadEnd<S>, eager: u32)
        requires cell { ReadsOf r.now self.now }
    {
        for _ in 0..eager {
            if self.may_find(r) {
                return;
            }
            spin_loop();
        }
        for _ in 0..MOST_LOOKS {
            if self.may_find(r) {
                return;
            }
            yield_now();
        }
        self.sleep(rt, r);
    }

    // Whether a poll may find something: there were news since the end last found nothing, or it has found its log closed.
    fn may_find(&self, r: &ReadEnd<S>) -> bool {
        r.is_shut() || steps::news(&self.table.shared) != r.heard
    }

    // Sleeps until the news are raised, unless they were raised since the end last found nothing.
    pub(crate) fn sleep<R: Wait>(&self, rt: &R, r: &ReadEnd<S>) {
        // Who raises the news and does not see this has raised them before the sleep begins, which then ends at once.
        self.asleep.store(true, Ordering::SeqCst);
        steps::sleep(rt, &self.table.shared, r.heard);
        self.asleep.store(false, Ordering::SeqCst);
    }

    // Wakes the end that reads, where it may be asleep.
    pub(crate) fn wake(&self, news: Raised) {
        let asleep = self.asleep.load(Ordering::SeqCst);
        steps::wake(&self.table.shared, news, asleep);
    }
}

impl<S: Story + Drop> Cell<S> {
    /// The log, where both ends have done with it: it has what was published and not read, and tells how much the link carried. They have
    /// to be this cell's. It takes no memory.
    pub fn done(self, w: WriteEnd<S>, r: ReadEnd<S>) -> Log<S>
        requires writer { WritesTo w self }
        requires reader { ReadsOf r self }
        ensures run { result.run ≡ self.run }
        ensures number { result.number ≡ self.number }
        ensures base { result.base ≡ r.end.got }
        ensures published { result.published ≡ w.end.published }
        ensures cause { result.cause ≡ w.end.cause }
        ensures got { r.end.got ≤ result.published }
        ensures own { result.entries ≡ between (S.entries_at result.run result.number) result.base result.published }
    {
        let WriteEnd { mut seat, end: _ } = w;
        let ReadEnd { seat: other, .. } = r;
        let Cell { table, .. } = self;
        table.shared.join_seat::<TwoEnds>(&mut seat, other);
        let log = log_at_home(table, seat);
        let _ = log.entries();
        log
    }
}

// How often an end has heard of news after a poll, before which they had been raised so often: what it found may go on, so that only where
// it found nothing all news are heard.
fn heard_after(heard: u32, news: u32, found: &Got) -> u32 {
    match found {
        Got::Nothing { .. } => news,
        Got::Entries { .. } | Got::Closed => heard,
    }
}

// The log that is at home, where the two ends were joined.
fn log_at_home<S: Story>(table: Board<S>, seat: Place<S>) -> Log<S>
    requires table { (seat.table_id ≡ table.shared.table_id) × IsSized table.shared.table_id }
    requires joined { IsJoined seat.me.0 }
    ensures agrees { AgreesWith seat.me.0 result }
{
    let mut closed = table.close_with(seat);
    let log = closed.take(0);
    closed.free();
    log
}
