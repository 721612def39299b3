//! The place of a line at which it is faulty.
ghost use Rattle.std.specs.Prelude.{◌≡◌, ◌≤◌, ◌++◌, length, map, IfOk, OnOk};
ghost use Rattle.std.specs.List.{prefix_len};
ghost use Rattle.xs_text.specs.Bytes.{is_allowed};
ghost use Rattle.explain_model.specs.Quote.{quote_text};
ghost use Rattle.explain_frame_text.specs.LineWords.{word_of};
ghost use Rattle.marked_lines.specs.Stops.{spot_of_kept};
ghost use Rattle.explain_frame_model.specs.FrameTold.{form_spot, bad_spot, faulty_word, edition_in};
ghost use Rattle.explain_frame_text.specs.Kept.{faulty_of_kept};

use crate::faulty_line::FaultyLine;
use crate::form_spots::spot_in;
use crate::line_words::{LineWord, word_at};
use crate::twice::{link_end_again, word_again};
use crate::unknown::unknown_word;
use explain_model::Want;
use frame_lines::{EarlierLine, edition_of};
use marked_lines::{Spot, append_line, append_mark};
use std::alloc::{AllocError, Global};
use system_model::SysKind;
use xs_base::Text;
use xs_text::{all_allowed, is_allowed};

impl<'a> FaultyLine<'a> {
    /// The edition of the text.
    pub(crate) fn edition(&self) -> Option<u8>
        ensures { result ≡ edition_in (faulty_of_kept self.now) }
    {
        edition_of(&self.lines)
    }

    /// How far the line has a form. The error is want of memory, here and below.
    pub(crate) fn form_spot(&self, alloc: Global) -> Result<Spot, AllocError>
        ensures { IfOk result (λ spot. spot_of_kept spot ≡ form_spot (faulty_of_kept self.now)) }
    {
        spot_in(alloc, self.inside, self.edition(), self.bytes)
    }

    /// How many bytes stand before the first one that a text may not hold.
    pub(crate) fn allowed_length(&self) -> usize
        ensures { result ≡ prefix_len is_allowed self.now.bytes.now }
    {
        self.bytes.iter().take_while(|b| is_allowed(**b)).count()
    }

    /// The first byte that a text may not hold, or else how far the line has a form.
    pub(crate) fn bad_spot(&self, alloc: Global) -> Result<Spot, AllocError>
        ensures { IfOk result (λ spot. spot_of_kept spot ≡ bad_spot (faulty_of_kept self.now)) }
    {
        if all_allowed(self.bytes) {
            self.form_spot(alloc)
        } else {
            Spot::new(alloc, self.allowed_length(), Some(Want::AllowedByte))
        }
    }

    /// The line as it stands, and a mark under one of its places.
    #[tactic(auto, using(crate::proofs::Marks::mark_capped))]
    pub(crate) fn append_quote(&self, out: &mut Text, place: usize) -> Result<(), AllocError>
        ensures { OnOk result (out.new ≡ out.old ++ quote_text self.now.number self.now.bytes.now place) }
    {
        append_line(out, self.number, self.bytes)?;
        append_mark(out, self.number, self.bytes, place.min(self.bytes.len()))
    }
}

/// The word at which a line is faulty whose form is good.
pub(crate) fn faulty_word<'a>(
    kind: SysKind,
    lines: &[EarlierLine],
    words: &[LineWord<'a>],
) -> LineWord<'a>
    ensures { word_of result ≡ faulty_word kind lines.now (map word_of words.now) }
{
    match kind {
        SysKind::GivenTwice => word_again(words),
        SysKind::IdTwice => word_at(words, 3),
        SysKind::LinkEndTwice => link_end_again(lines, words),
        SysKind::NoSuchNode => unknown_word(lines, words),
        SysKind::LinkToItself
        | SysKind::BitTwice
        | SysKind::WireWithinNode
        | SysKind::WidthsDiffer
        | SysKind::PinWiredTwice => word_at(words, 2),
        _ => word_at(words, 0),
    }
}
