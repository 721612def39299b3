//! The two ends of a cell. See docs/LOOKAHEAD.md.
ghost use Rattle.std.specs.Prelude.{◌≡◌, []};

use crate::view::Place;
use link_logs::{Cause, Story};
use std::marker::Model;
use xs_base::Batch;

/// The end of a cell that writes. There is one for each cell. Contracts see a `CellWriteRec` of `Rattle.log_cells.specs.Ends`.
#[derive(Drop)]
pub struct WriteEnd<S: Story> {
    pub(crate) seat: Place<S>,
    pub(crate) end: link_logs::WriteEnd<S>,
}

impl<S: Story> Model for WriteEnd<S> {
    ghost use Rattle.std.specs.Prelude.{◌≡◌, []};
    ghost use Rattle.log_cells.specs.Ends.{CellWriteRec};

    ghost Value = { CellWriteRec S.Run };

    ghost use Rattle.log_cells.specs.Rule.{refused_of, raised_of};
    ghost use Rattle.log_cells.specs.Plays.{writer_at};

    ghost view = { λ w. record { table = w.seat.table_id; end = w.end; refused = refused_of w.seat.me.0; raised = raised_of w.seat.me.0 } };

    ghost invariant = { λ w. w.seat.me ≡ writer_at w.end (refused_of w.seat.me.0) (raised_of w.seat.me.0) };
}

impl<S: Story> WriteEnd<S> {
    /// The slot up to which it has published.
    pub fn published(&self) -> u32
        ensures value { result ≡ self.now.end.published }
    {
        self.end.published()
    }

    /// Why it has closed the log, if it has.
    pub fn cause(&self) -> Option<Cause>
        ensures value { result ≡ self.now.end.cause }
    {
        self.end.cause()
    }
}

/// The end of a cell that reads. There is one for each cell. Contracts see a `CellReadRec` of `Rattle.log_cells.specs.Ends`.
#[derive(Drop)]
pub struct ReadEnd<S: Story> {
    pub(crate) seat: Place<S>,
    pub(crate) end: link_logs::ReadEnd<S>,
    // How often the news had been raised before it last found nothing, in the low 32 bits.
    pub(crate) heard: u32,
}

impl<S: Story> Model for ReadEnd<S> {
    ghost use Rattle.std.specs.Prelude.{◌≡◌, []};
    ghost use Rattle.log_cells.specs.Ends.{CellReadRec};

    ghost Value = { CellReadRec S.Run };

    ghost use Rattle.log_cells.specs.Rule.{refused_of, turns_of};
    ghost use Rattle.log_cells.specs.Plays.{reader_at};

    ghost view = { λ r. record { table = r.seat.table_id; end = r.end; refused = refused_of r.seat.me.0; turns = turns_of r.seat.me.0 } };

    ghost invariant = { λ r. r.seat.me ≡ reader_at r.end (refused_of r.seat.me.0) (turns_of r.seat.me.0) };
}

impl<S: Story> ReadEnd<S> {
    /// The slot up to which it has read.
    pub fn got(&self) -> u32
        ensures value { result ≡ self.now.end.got }
    {
        self.end.got()
    }

    /// How often it has looked, which stays at 2^64 - 1.
    pub fn looks(&self) -> u64
        ensures value { result ≡ self.now.end.looks }
    {
        self.end.looks()
    }

    /// Whether it has found the log closed.
    pub fn is_shut(&self) -> bool
        ensures value { result ≡ self.now.end.shut }
    {
        self.end.is_shut()
    }

    /// Keeps the buffer of a batch of which all was taken: the next look that moves entries out of the log leaves it there in their place.
    /// It takes no memory, and no turn.
    pub fn give_back(&mut self, batch: Batch)
        requires empty { batch.entries ≡ [] }
        ensures same { self.new ≡ self.old }
    {
        self.end.give_back(batch);
    }
}
