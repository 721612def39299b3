//! The place of a line at which it is faulty, and what may stand there.
ghost use Rattle.std.specs.Prelude.{◌≡◌, ◌≤◌, length, Some, None, option_map, IfOk, IfSome};
ghost use Rattle.std.specs.List.{prefix_len};
ghost use Rattle.xs_text.specs.Bytes.{is_allowed};
ghost use Rattle.explain_model.specs.Placed.{placed_tokens, placed_labels};
ghost use Rattle.explain_model.specs.Spots.{number_of_line, bytes_of_line, section_in, all_labels, statement_in, twice_in, reserved_label, use_in, statement_spot, place_of_first, reserved_or, range_spot, twice_spot, use_spot, spot_of};
ghost use Rattle.placed_tokens.specs.Tokens.{placed_left, placed_of};
ghost use Rattle.marked_lines.specs.Stops.{spot_of_kept};
ghost use Rattle.explain_text.specs.Found.{twice_of_kept, use_of_kept};
ghost use Rattle.explain_text.specs.Lines.{line_of_kept};
ghost use Rattle.source_model.specs.declared.AsmKind.TheVariants as kinds;
ghost use Rattle.explain_text.specs.Spots.{IsFirst};

use crate::labels::{Twice, first_twice, labels_of};
use crate::rows::rows_spot;
use crate::source_line::SourceLine;
use crate::uses::{Use, first_use};
use crate::values::directive_stop;
use explain_model::Want;
use marked_lines::Spot;
use placed_tokens::{Token, behind_labels, next_label, next_token, section_of};
use source_model::{AsmKind, Section};
use std::alloc::{AllocError, Global};
use xs_instructions::{Symbols, is_reserved};
use xs_text::{TokKind, is_allowed};

impl<'a> SourceLine<'a> {
    /// Its number in the whole text.
    pub(crate) fn number(&self) -> u32
        ensures { result ≡ number_of_line (line_of_kept self.now) }
    {
        self.first + (self.line - 1)
    }

    /// The section in which it stands.
    pub(crate) fn section(&self) -> Section
        ensures { result ≡ section_in (line_of_kept self.now) }
    {
        section_of(self.source, self.line - 1)
    }

    /// The labels of all lines. The error is want of memory, here and below.
    pub(crate) fn all_labels(&self, alloc: Global) -> Result<Symbols, AllocError>
        ensures { IfOk result (λ labels. labels.labels ≡ all_labels (line_of_kept self.now)) }
    {
        let labels = labels_of(alloc, self.source, self.first, u32::MAX)?;
        Ok(labels)
    }

    /// The first token of its statement.
    pub(crate) fn first_token(&self) -> Option<Token<'a>>
        ensures first { IsFirst (statement_in (line_of_kept self.now)) self.now.bytes.now result }
        ensures within { IfSome result (λ t. t.end ≤ length self.now.bytes.now) }
    {
        next_token(self.bytes, behind_labels(self.bytes))
    }

    /// The first of its labels that is defined already.
    pub(crate) fn twice(&self, alloc: Global) -> Result<Option<Twice<'a>>, AllocError>
        ensures found { IfOk result (λ found. option_map twice_of_kept found ≡ twice_in (line_of_kept self.now)) }
        ensures within { IfOk result (λ found. IfSome found (λ t. t.label.end ≤ length self.now.bytes.now)) }
    {
        let labels = labels_of(alloc, self.source, self.first, self.line - 1)?;
        first_twice(alloc, labels, self.number(), self.bytes)
    }

    /// The first of its labels that is a reserved name.
    pub(crate) fn reserved_label(&self) -> Option<Token<'a>>
        ensures found { option_map placed_of result ≡ reserved_label (placed_tokens self.now.bytes.now) }
        ensures within { IfSome result (λ t. t.end ≤ length self.now.bytes.now) }
    {
        let mut at = 0;
        while let Some((name, behind)) = next_label(self.bytes, at) {
            if is_reserved(name.bytes) {
                return Some(name);
            }
            at = behind;
        }
        None
    }

    /// The first label that its statement names, and that is none of some labels, where such are given.
    pub(crate) fn first_use(&self, labels: Option<&Symbols>) -> Option<Use<'a>>
        ensures found { option_map use_of_kept result ≡ use_in (option_map (λ s. s.now.labels) labels.entry) (statement_in (line_of_kept self.now)) }
        ensures within { IfSome result (λ found. found.label.end ≤ length self.now.bytes.now) }
    {
        match self.first_token() {
            None => None,
            Some(name) => first_use(
                labels,
                name.bytes.first() == Some(&b'.'),
                self.bytes,
                name.end,
            ),
        }
    }

    /// The place at which its statement is faulty by its form.
    pub(crate) fn statement_spot(&self, alloc: Global) -> Result<Spot, AllocError>
        ensures spot { IfOk result (λ spot. spot_of_kept spot ≡ statement_spot (section_in (line_of_kept self.now)) (statement_in (line_of_kept self.now))) }
        ensures within { IfOk result (λ spot. spot.at ≤ length self.now.bytes.now) }
    {
        let Some(name) = self.first_token() else {
            return Spot::new(alloc, 0, Some(Want::Statement(self.section())));
        };
        if name.kind != TokKind::Name {
            return Spot::new(alloc, name.at, Some(Want::Statement(self.section())));
        }
        if name.bytes.first() == Some(&b'.') {
            return Spot::of_stop(alloc, directive_stop(name.bytes, self.bytes, name.end));
        }
        rows_spot(alloc, name.bytes, self.bytes, name.end)
    }

    // The place of the first token of its statement.
    fn statement_place(&self) -> usize
        ensures place { result ≡ place_of_first (statement_in (line_of_kept self.now)) }
        ensures within { result ≤ length self.now.bytes.now }
    {
        match self.first_token() {
            None => 0,
            Some(name) => name.at,
        }
    }

    /// How many of its bytes come before the first that a text may not hold.
    pub(crate) fn allowed_length(&self) -> usize
        ensures length { result ≡ prefix_len is_allowed self.now.bytes.now }
        ensures within { result ≤ length self.now.bytes.now }
    {
        self.bytes.iter().take_while(|b| is_allowed(**b)).count()
    }

    fn wrong_operands(&self, alloc: Global) -> Result<Spot, AllocError>
        ensures spot { IfOk result (λ spot. spot_of_kept spot ≡ spot_of kinds.WrongOperands (line_of_kept self.now)) }
        ensures within { IfOk result (λ spot. spot.at ≤ length self.now.bytes.now) }
    {
        match self.reserved_label() {
            Some(name) => Spot::new(alloc, name.at, Some(Want::FreeName)),
            None => self.statement_spot(alloc),
        }
    }

    fn out_of_range(&self, alloc: Global) -> Result<Spot, AllocError>
        ensures spot { IfOk result (λ spot. spot_of_kept spot ≡ spot_of kinds.NumberOutOfRange (line_of_kept self.now)) }
        ensures within { IfOk result (λ spot. spot.at ≤ length self.now.bytes.now) }
    {
        let spot = self.statement_spot(alloc)?;
        if spot.all_fit {
            return use_spot(alloc, self.first_use(None));
        }
        Ok(spot)
    }

    fn label_twice(&self, alloc: Global) -> Result<Spot, AllocError>
        ensures spot { IfOk result (λ spot. spot_of_kept spot ≡ spot_of kinds.LabelTwice (line_of_kept self.now)) }
        ensures within { IfOk result (λ spot. spot.at ≤ length self.now.bytes.now) }
    {
        match self.twice(alloc)? {
            None => Spot::new(alloc, 0, None),
            Some(twice) => Spot::new(alloc, twice.label.at, Some(Want::NewLabel)),
        }
    }

    fn label_missing(&self, alloc: Global) -> Result<Spot, AllocError>
        ensures spot { IfOk result (λ spot. spot_of_kept spot ≡ spot_of kinds.LabelMissing (line_of_kept self.now)) }
        ensures within { IfOk result (λ spot. spot.at ≤ length self.now.bytes.now) }
    {
        let labels = self.all_labels(alloc)?;
        use_spot(alloc, self.first_use(Some(&labels)))
    }

    /// The place at which it is faulty, by the kind of its fault, and what may stand there.
    pub(crate) fn spot(&self, alloc: Global, kind: AsmKind) -> Result<Spot, AllocError>
        ensures spot { IfOk result (λ spot. spot_of_kept spot ≡ spot_of kind (line_of_kept self.now)) }
        ensures within { IfOk result (λ spot. spot.at ≤ length self.now.bytes.now) }
    {
        match kind {
            AsmKind::BadByte => Spot::new(alloc, self.allowed_length(), Some(Want::AllowedByte)),
            AsmKind::UnknownName | AsmKind::DirectiveNotAllowed => Spot::new(
                alloc,
                self.statement_place(),
                Some(Want::Statement(self.section())),
            ),
            AsmKind::WrongOperands => self.wrong_operands(alloc),
            AsmKind::NumberOutOfRange => self.out_of_range(alloc),
            AsmKind::LabelTwice => self.label_twice(alloc),
            AsmKind::LabelMissing => self.label_missing(alloc),
            AsmKind::TooManyInstructions | AsmKind::TooManyBytes => Spot::new(
                alloc,
                self.statement_place(),
                None,
            ),
        }
    }
}

fn use_spot(alloc: Global, found: Option<Use>) -> Result<Spot, AllocError>
    ensures { IfOk result (λ spot. spot_of_kept spot ≡ use_spot (option_map use_of_kept found.entry)) }
{
    match found {
        None => Spot::new(alloc, 0, None),
        Some(found) => Spot::new(alloc, found.label.at, Some(found.want)),
    }
}
