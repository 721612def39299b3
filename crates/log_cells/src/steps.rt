//! What is done in a turn: the turn is claimed, the log is used, and the turn is given back.
ghost use Rattle.std.specs.Prelude.{◌≡◌, ◌≤◌, ◌+◌, [], ◌∷◌, ◌++◌, Some, None, true, false, OnOk, OnErr};
ghost use Rattle.link_logs.specs.Entries.{between};
ghost use Rattle.link_logs.specs.declared.answers.Got.TheVariants.{Closed};
ghost use Rattle.log_cells.specs.Rule.{refused_of, raised_of, turns_of};
ghost use Rattle.log_cells.specs.Ends.{LooksAt};
ghost use Rattle.log_cells.specs.Plays.{IsSized, writer_at, reader_at, logs_in, WriterHas, HasClaimed, HasTaken};

use crate::plays::{ClaimToRead, ClaimToWrite, GiveShut, GiveTaken, GiveWritten, Raise};
use crate::view::{Place, Top};
use link_logs::{Cause, Got, ReadEnd, Story, WriteEnd};
use std::alloc::AllocError;
use std::marker::PhantomData;
use std::sync::Wait;
use xs_base::Batch;

// The word that says whose turn it is, and its three values.
const TURN: usize = 0;

const FREE: u64 = 0;

const WRITERS: u64 = 1;

const READERS: u64 = 2;

// The word that is raised where there are news.
const NEWS: usize = 1;

// The log.
const LOG: usize = 0;

// Claims the turn once for the end that writes, and tells whether it has it: it is refused where the turn is held.
pub fn claim_to_write<S: Story>(top: &Top<S>, seat: &mut Place<S>, end: &WriteEnd<S>) -> bool
    requires table { (seat.old.table_id ≡ top.now.table_id) × IsSized top.now.table_id }
    requires writer { seat.old.me ≡ writer_at end.now (refused_of seat.old.me.0) (raised_of seat.old.me.0) }
    ensures table { seat.new.table_id ≡ seat.old.table_id }
    ensures has { result ≡ true → WriterHas end.now (refused_of seat.new.me.0) (raised_of seat.new.me.0) seat.new.me }
    ensures same { result ≡ true → refused_of seat.new.me.0 ≡ refused_of seat.old.me.0 }
    ensures writer { result ≡ false → seat.new.me ≡ writer_at end.now (refused_of seat.new.me.0) (raised_of seat.new.me.0) }
    ensures refused { result ≡ false → refused_of seat.new.me.0 ≡ refused_of seat.old.me.0 + 1 }
    ensures raised { raised_of seat.new.me.0 ≡ raised_of seat.old.me.0 }
{
    top.compare_exchange::<ClaimToWrite>(seat, TURN, FREE, WRITERS) == FREE
}

// The same for the end that reads: the log that it has then is that of one more turn.
pub fn claim_to_read<S: Story>(top: &Top<S>, seat: &mut Place<S>, end: &ReadEnd<S>) -> bool
    requires table { (seat.old.table_id ≡ top.now.table_id) × IsSized top.now.table_id }
    requires reader { seat.old.me ≡ reader_at end.now (refused_of seat.old.me.0) (turns_of seat.old.me.0) }
    ensures table { seat.new.table_id ≡ seat.old.table_id }
    ensures has { result ≡ true → HasClaimed end.now (refused_of seat.new.me.0) (turns_of seat.new.me.0) seat.new.me }
    ensures same { result ≡ true → refused_of seat.new.me.0 ≡ refused_of seat.old.me.0 }
    ensures reader { result ≡ false → seat.new.me ≡ reader_at end.now (refused_of seat.new.me.0) (turns_of seat.new.me.0) }
    ensures refused { result ≡ false → refused_of seat.new.me.0 ≡ refused_of seat.old.me.0 + 1 }
    ensures turns { turns_of seat.new.me.0 ≡ logs_in seat.new.me.1 ++ turns_of seat.old.me.0 }
{
    top.compare_exchange::<ClaimToRead>(seat, TURN, FREE, READERS) == FREE
}

// `Log::append`, where the seat has the log.
pub fn append<S: Story>(
    top: &Top<S>,
    seat: &mut Place<S>,
    end: &mut WriteEnd<S>,
    upto: u32,
    batch: &mut Batch,
) -> Result<(), AllocError>
    requires table { seat.old.table_id ≡ top.now.table_id }
    requires has { WriterHas end.old (refused_of seat.old.me.0) (raised_of seat.old.me.0) seat.old.me }
    requires open { end.old.cause ≡ None }
    requires on { end.old.published ≤ upto }
    requires own { batch.old.entries ≡ between (S.entries_at end.old.run end.old.number) end.old.published upto }
    ensures table { seat.new.table_id ≡ seat.old.table_id }
    ensures has { WriterHas end.new (refused_of seat.new.me.0) (raised_of seat.new.me.0) seat.new.me }
    ensures refused { refused_of seat.new.me.0 ≡ refused_of seat.old.me.0 }
    ensures raised { raised_of seat.new.me.0 ≡ raised_of seat.old.me.0 }
    ensures end { OnOk result (end.new ≡ record end.old { published = upto }) }
    ensures batch { OnOk result (batch.new.entries ≡ []) }
    ensures err_end { OnErr result (end.new ≡ end.old) }
    ensures err_batch { OnErr result (batch.new ≡ batch.old) }
{
    let log = seat.slot_mut(top, LOG);
    log.append(end, upto, batch)
}

// `Log::close`, where the seat has the log.
pub fn close<S: Story>(top: &Top<S>, seat: &mut Place<S>, end: &mut WriteEnd<S>, cause: Cause)
    requires table { seat.old.table_id ≡ top.now.table_id }
    requires has { WriterHas end.old (refused_of seat.old.me.0) (raised_of seat.old.me.0) seat.old.me }
    requires open { end.old.cause ≡ None }
    ensures table { seat.new.table_id ≡ seat.old.table_id }
    ensures has { WriterHas end.new (refused_of seat.new.me.0) (raised_of seat.new.me.0) seat.new.me }
    ensures refused { refused_of seat.new.me.0 ≡ refused_of seat.old.me.0 }
    ensures raised { raised_of seat.new.me.0 ≡ raised_of seat.old.me.0 }
    ensures end { end.new ≡ record end.old { cause = Some cause } }
{
    let log = seat.slot_mut(top, LOG);
    log.close(end, cause);
}

// `Log::take`, where the seat has the log.
pub fn take<S: Story>(top: &Top<S>, seat: &mut Place<S>, end: &mut ReadEnd<S>) -> Got
    requires table { seat.old.table_id ≡ top.now.table_id }
    requires has { HasClaimed end.old (refused_of seat.old.me.0) (turns_of seat.old.me.0) seat.old.me }
    ensures table { seat.new.table_id ≡ seat.old.table_id }
    ensures refused { refused_of seat.new.me.0 ≡ refused_of seat.old.me.0 }
    ensures turns { turns_of seat.new.me.0 ≡ turns_of seat.old.me.0 }
    ensures got { (look : LooksAt (S.entries_at end.old.run end.old.number) end.old result end.new) × (logs_in seat.old.me.1 ≡ look.log ∷ []) }
    ensures shut { end.old.shut ≡ true → result ≡ Closed }
    ensures more { end.old.looks ≤ end.new.looks }
    ensures has { HasTaken end.new (refused_of seat.new.me.0) (turns_of seat.new.me.0) seat.new.me }
{
    let log = seat.slot_mut(top, LOG);
    log.take(end)
}

// Gives the turn back after the end has written.
pub fn give_written<S: Story>(top: &Top<S>, seat: &mut Place<S>, end: &WriteEnd<S>)
    requires table { (seat.old.table_id ≡ top.now.table_id) × IsSized top.now.table_id }
    requires has { WriterHas end.now (refused_of seat.old.me.0) (raised_of seat.old.me.0) seat.old.me }
    ensures table { seat.new.table_id ≡ seat.old.table_id }
    ensures writer { seat.new.me ≡ writer_at end.now (refused_of seat.old.me.0) (raised_of seat.old.me.0) }
{
    top.store::<GiveWritten>(seat, TURN, FREE);
}

// Gives the turn back after the end has taken all that it had not read.
pub fn give_taken<S: Story>(top: &Top<S>, seat: &mut Place<S>, end: &ReadEnd<S>)
    requires table { (seat.old.table_id ≡ top.now.table_id) × IsSized top.now.table_id }
    requires has { HasTaken end.now (refused_of seat.old.me.0) (turns_of seat.old.me.0) seat.old.me }
    ensures table { seat.new.table_id ≡ seat.old.table_id }
    ensures reader { seat.new.me ≡ reader_at end.now (refused_of seat.old.me.0) (turns_of seat.old.me.0) }
{
    if end.is_shut() {
        top.store::<GiveShut>(seat, TURN, FREE);
    } else {
        top.store::<GiveTaken>(seat, TURN, FREE);
    }
}

// How often the news were raised, in its low 32 bits.
pub fn news<S: Story>(top: &Top<S>) -> u32
    requires table { IsSized top.now.table_id }
{
    (top.peek(NEWS) % (1 << 32)) as u32
}

// Sleeps until the news are raised, unless they were raised since so many were seen.
pub fn sleep<S: Story, R: Wait>(rt: &R, top: &Top<S>, seen: u32)
    requires table { IsSized top.now.table_id }
{
    top.park(rt, NEWS, seen);
}

// News that were raised, while who sleeps on them is not woken yet. Nothing can let go of it but `wake`, so no call can leave that out, or make it
// before the news are raised.
pub struct Raised {
    seal: PhantomData<()>,
}

// Raises the news once.
pub fn raise<S: Story>(top: &Top<S>, seat: &mut Place<S>, end: &WriteEnd<S>) -> Raised
    requires table { (seat.old.table_id ≡ top.now.table_id) × IsSized top.now.table_id }
    requires writer { seat.old.me ≡ writer_at end.now (refused_of seat.old.me.0) (raised_of seat.old.me.0) }
    ensures table { seat.new.table_id ≡ seat.old.table_id }
    ensures raised { seat.new.me ≡ writer_at end.now (refused_of seat.old.me.0) (raised_of seat.old.me.0 + 1) }
{
    top.fetch_add::<Raise>(seat, NEWS, 1);
    Raised { seal: PhantomData }
}

// Wakes who sleeps on the news, where somebody may.
pub fn wake<S: Story>(top: &Top<S>, news: Raised, asleep: bool)
    requires table { IsSized top.now.table_id }
{
    let Raised { seal: _ } = news;
    if asleep {
        top.wake_one(NEWS);
    }
}
