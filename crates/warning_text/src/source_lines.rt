//! `SourceLines`, the lines of a source, one by one.
ghost use Rattle.std.specs.Prelude.{◌≡◌, ◌≤◌, ◌<◌, ◌+◌, ◌^◌, ◌∷◌, [], length, IfSome, MatchOption};
ghost use Rattle.xs_text.specs.Lines.{start_of};
ghost use Rattle.warning_text.specs.Lines.{lines_left};

use frame_lines::is_end;
use std::marker::Model;
use xs_text::Lines;

/// Gives the lines of a text up to the one that ends a section. Contracts see how far the text was read.
#[derive(Drop)]
pub(crate) struct SourceLines<'a> {
    text: &'a [u8],
    lines: Lines<'a>,
}

impl<'a> Model for SourceLines<'a> {
    ghost use Rattle.std.specs.Prelude.{◌≡◌};
    ghost use Rattle.xs_text.specs.Lines.{Reading};

    ghost Value = { Reading };

    ghost view = { λ s. s.lines };

    ghost invariant = { λ s. s.lines.text ≡ s.text.now };
}

impl<'a> SourceLines<'a> {
    /// Those of a text that begins with the first of them.
    pub(crate) fn new(text: &'a [u8]) -> SourceLines<'a>
        requires { length text.now < 2 ^ 32 }
        ensures { result ≡ start_of text.now }
    {
        SourceLines {
            text,
            lines: Lines::new(text),
        }
    }

    /// The next line with its number, from 1, None at the end.
    #[tactic(auto, unfolding(warning_model::specs::Warnings::lines_to_end))]
    pub(crate) fn next_line(&mut self) -> Option<(u32, &'a [u8])>
        ensures line { MatchOption result (lines_left self.old ≡ []) (λ l. lines_left self.old ≡ l.1.now ∷ lines_left self.new) }
        ensures numbered { IfSome result (λ l. l.0 ≡ self.old.number + 1) }
        ensures counted { IfSome result (λ l. self.new.number ≡ l.0) }
        ensures onward { IfSome result (λ l. self.old.at < self.new.at) }
        ensures same_text { self.new.text ≡ self.old.text }
        ensures within { self.new.at ≤ length self.old.text }
    {
        let Some(line) = self.lines.next_line() else {
            return None;
        };
        let bytes = &self.text[line.from..line.to];
        if is_end(bytes) {
            return None;
        }
        Some((line.number, bytes))
    }
}
