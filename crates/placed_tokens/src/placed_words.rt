//! The words of a line, one by one, with their places.
ghost use Rattle.std.specs.Prelude.{◌≡◌, ◌≤◌, ◌<◌, ◌+◌, ◌-◌, false, ◌∷◌, [], length, drop, slice_index, IfSome, MatchOption};
ghost use Rattle.xs_text.specs.Bytes.{is_blank};
ghost use Rattle.xs_text.specs.Tokens.{begins_comment};
ghost use Rattle.xs_text.specs.Words.{ends_word, word_length};
ghost use Rattle.explain_model.specs.Words.{words_left};
ghost use Rattle.placed_tokens.specs.Words.{word_of};

use crate::word::Word;

fn is_blank(b: u8) -> bool
    ensures { result ≡ is_blank b }
{
    b == b'\t' || b == b' '
}

// Whether a comment begins at b, before the bytes after it.
fn begins_comment(b: u8, rest: &[u8]) -> bool
    ensures { result ≡ begins_comment b rest.now }
{
    match rest {
        [b'/', ..] => b == b'#' || b == b'/',
        _ => b == b'#',
    }
}

// Whether a word ends before the index.
fn ends_word(line: &[u8], at: usize) -> bool
    requires { at < length line.now }
    ensures { result ≡ ends_word (slice_index line.now at) (drop (at + 1) line.now) }
{
    is_blank(line[at]) || begins_comment(line[at], &line[at + 1..])
}

// The place behind the word of which the bytes from a place on are the rest.
#[tactic(auto, using(xs_text::proofs::FirstWord::word_steps))]
fn end_of_word(line: &[u8], at: usize) -> usize
    requires { at ≤ length line.now }
    ensures length { result ≡ at + word_length (drop at line.now) }
    ensures within { result ≤ length line.now }
{
    let mut end = at;
    while end < line.len() && !ends_word(line, end) {
        end += 1;
    }
    end
}

// The word that begins at a place.
fn word_at(line: &[u8], at: usize) -> Word<'_>
    requires there { at < length line.now }
    requires begins { ends_word (slice_index line.now at) (drop (at + 1) line.now) ≡ false }
    ensures word { words_left line.now at ≡ word_of result ∷ words_left line.now result.end }
    ensures within { result.end ≤ length line.now }
    ensures onward { at < result.end }
{
    let end = end_of_word(line, at + 1);
    Word {
        at,
        end,
        bytes: &line[at..end],
    }
}

/// The first word of a line from a place on. None comes exactly where only blanks and a comment are left. See docs/LOOK.md.
#[tactic(auto, using(crate::proofs::PlacedWords::word_steps))]
pub fn next_word_at(line: &[u8], at: usize) -> Option<Word<'_>>
    requires { at ≤ length line.now }
    ensures word { MatchOption result (words_left line.now at ≡ []) (λ w. words_left line.now at ≡ word_of w ∷ words_left line.now w.end) }
    ensures within { IfSome result (λ w. w.end ≤ length line.now) }
    ensures onward { IfSome result (λ w. at < w.end) }
{
    let mut at = at;
    while at < line.len() {
        if !is_blank(line[at]) {
            if ends_word(line, at) {
                return None;
            }
            return Some(word_at(line, at));
        }
        at += 1;
    }
    None
}
