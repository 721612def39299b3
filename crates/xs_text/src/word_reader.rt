ghost use Rattle.std.specs.Prelude.{◌≡◌, ◌+◌, ◌<◌, ◌≤◌, ◌∷◌, [], length, drop, slice_index, MatchOption};
ghost use Rattle.xs_text.specs.Words.{words_of_line, ends_word, word_length};

use crate::byte_tests::is_blank;
use crate::token_reader::{begins_comment, blank_length};

/// The first word of a line, or of what is left of one, and the bytes after it. None comes exactly where only
/// blanks and a comment are left.
pub fn next_word(bytes: &[u8]) -> Option<(&[u8], &[u8])>
    ensures { MatchOption result (words_of_line bytes.now ≡ []) (λ x. words_of_line bytes.now ≡ x.0.now ∷ words_of_line x.1.now) }
{
    let word = &bytes[blank_length(bytes)..];
    let length = word_length(word);
    if length == 0 {
        return None;
    }
    Some((&word[..length], &word[length..]))
}

// Whether a word ends before the index.
fn ends_word(bytes: &[u8], at: usize) -> bool
    requires { at < length bytes.now }
    ensures { result ≡ ends_word (slice_index bytes.now at) (drop (at + 1) bytes.now) }
{
    is_blank(bytes[at]) || begins_comment(bytes[at], &bytes[at + 1..])
}

// How many bytes the word has that begins here: none at a blank or a comment.
#[tactic(auto, using(crate::proofs::FirstWord::word_steps))]
fn word_length(bytes: &[u8]) -> usize
    ensures length { result ≡ word_length bytes.now }
    ensures within { result ≤ length bytes.now }
{
    let mut at = 0;
    while at < bytes.len() && !ends_word(bytes, at) {
        at += 1;
    }
    at
}
