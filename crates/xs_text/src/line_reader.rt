ghost use Rattle.std.specs.Prelude.{◌≡◌, ◌+◌, ◌^◌, ◌<◌, ◌≤◌, ◌↔◌, ◌∷◌, [], length, drop, slice_index, IsNone, IfNone, IfSome};
ghost use Rattle.xs_text.specs.Lines.{lines_of, line_bytes, bytes_left, start_of, is_line_end, line_length, end_length, whole_line, IsLineOfParts};

use std::marker::Model;

/// A line of a text. Its bytes without its end are `text[from..to]`.
#[derive(Clone, Copy)]
pub struct Line {
    /// Lines count from 1.
    pub number: u32,
    pub from: usize,
    pub to: usize,
}

/// Gives the lines of a text, the first one first.
#[derive(Drop)]
pub struct Lines<'a> {
    text: &'a [u8],
    at: usize,
    number: u32,
}

impl<'a> Model for Lines<'a> {
    ghost use Rattle.std.specs.Prelude.{◌≤◌, ◌<◌, ◌^◌, length};
    ghost use Rattle.xs_text.specs.Lines.{Reading};

    ghost Value = { Reading };

    ghost view = { λ l. record { text = l.text.now; at = l.at; number = l.number } };

    // Each line takes a byte at least, so the count of lines fits.
    ghost invariant = { λ l. (l.number ≤ l.at) × (l.at ≤ length l.text.now) × (length l.text.now < 2 ^ 32) };
}

impl<'a> Lines<'a> {
    /// The lines of a text of fewer than 2^32 bytes.
    pub fn new(text: &'a [u8]) -> Lines<'a>
        requires { length text.now < 2 ^ 32 }
        ensures { result ≡ start_of text.now }
    {
        Lines {
            text,
            at: 0,
            number: 0,
        }
    }

    /// The next line, or None at the end of the text, then and ever after.
    pub fn next_line(&mut self) -> Option<Line>
        ensures end { IsNone result ↔ (bytes_left self.old ≡ []) }
        ensures end_stays { IfNone result (self.new ≡ self.old) }

        ensures line { IfSome result (λ line. lines_of (bytes_left self.old) ≡ line_bytes self.old.text line ∷ lines_of (bytes_left self.new)) }
        // The same of each part of the text that begins here and ends past the line.
        ensures part { IfSome result (λ line. IsLineOfParts self.old.text line self.old.at self.new.at) }
        ensures begins { IfSome result (λ line. line.from ≡ self.old.at) }
        ensures ordered { IfSome result (λ line. line.from ≤ line.to) }
        ensures in_text { IfSome result (λ line. line.to ≤ length self.old.text) }
        ensures passed { IfSome result (λ line. line.to ≤ self.new.at) }
        ensures whole { IfSome result (λ _. self.new.at ≡ self.old.at + whole_line (bytes_left self.old)) }
        ensures numbered { IfSome result (λ line. line.number ≡ self.old.number + 1) }
        ensures counted { IfSome result (λ line. self.new.number ≡ line.number) }
        ensures progress { IfSome result (λ _. self.old.at < self.new.at) }

        ensures same_text { self.new.text ≡ self.old.text }
        ensures within { self.new.at ≤ length self.old.text }
    {
        if self.at == self.text.len() {
            return None;
        }
        let from = self.at;
        let left = &self.text[from..];
        let length = line_length(left);
        let to = from + length;
        self.at = to + end_length(&left[length..]);
        self.number += 1;
        Some(Line {
            number: self.number,
            from,
            to,
        })
    }

    /// The bytes that are still to be read, those of the lines to come.
    pub fn rest(&self) -> &'a [u8]
        ensures { result.now ≡ bytes_left self.now }
    {
        &self.text[self.at..]
    }
}

// Whether a line's end begins at the index.
fn is_line_end(bytes: &[u8], at: usize) -> bool
    requires { at < length bytes.now }
    ensures { result ≡ is_line_end (slice_index bytes.now at) (drop (at + 1) bytes.now) }
{
    let returns = bytes[at] == b'\r' && at + 1 < bytes.len() && bytes[at + 1] == b'\n';
    bytes[at] == b'\n' || returns
}

// How many bytes the first line has, without its end.
#[tactic(auto, using(crate::proofs::FirstLine::line_steps))]
fn line_length(bytes: &[u8]) -> usize
    ensures length { result ≡ line_length bytes.now }
    ensures within { result ≤ length bytes.now }
{
    let mut at = 0;
    while at < bytes.len() && !is_line_end(bytes, at) {
        at += 1;
    }
    at
}

// How many bytes the line's end has that stands first.
fn end_length(bytes: &[u8]) -> usize
    ensures { result ≡ end_length bytes.now }
{
    if bytes.is_empty() {
        0
    } else if bytes[0] == b'\n' {
        1
    } else {
        2
    }
}
