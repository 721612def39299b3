//! The kinds of step on a cell's words. There are no others.
ghost use Rattle.log_cells.specs.Plays.{claims_as_writer, claims_as_reader, gives_written, gives_taken, gives_shut, raises, writer_part, reader_part, joined_view};
ghost use Rattle.log_cells.specs.declared.view.View.TheVariants.{Spent};

use crate::view::View;
use atomic_table::{Join, Play, Split};
use link_logs::{Log, Story};

// Claims the turn for the end that writes.
pub struct ClaimToWrite;

impl<S: Story> Play<Log<S>, View<Log<S>, S::Run>> for ClaimToWrite {
    ghost then = { claims_as_writer };
}

// Claims the turn for the end that reads.
pub struct ClaimToRead;

impl<S: Story> Play<Log<S>, View<Log<S>, S::Run>> for ClaimToRead {
    ghost then = { claims_as_reader };
}

// Gives the turn back with what is published, and the cause where the log is closed.
pub struct GiveWritten;

impl<S: Story> Play<Log<S>, View<Log<S>, S::Run>> for GiveWritten {
    ghost then = { gives_written };
}

// Gives the turn back, where all was taken.
pub struct GiveTaken;

impl<S: Story> Play<Log<S>, View<Log<S>, S::Run>> for GiveTaken {
    ghost then = { gives_taken };
}

// Gives the turn back, where all was taken and the log was found closed.
pub struct GiveShut;

impl<S: Story> Play<Log<S>, View<Log<S>, S::Run>> for GiveShut {
    ghost then = { gives_shut };
}

// Raises the news.
pub struct Raise;

impl<S: Story> Play<Log<S>, View<Log<S>, S::Run>> for Raise {
    ghost then = { raises };
}

// Makes the seat of the second end, and joins the two at the end.
pub struct TwoEnds;

impl<S: Story> Split<View<Log<S>, S::Run>> for TwoEnds {
    ghost left = { writer_part };

    ghost right = { reader_part };
}

impl<S: Story> Join<View<Log<S>, S::Run>> for TwoEnds {
    ghost both = { joined_view };

    ghost spent = { Spent };
}
