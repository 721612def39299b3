//! A line before the system text by its words.
ghost use Rattle.std.specs.Prelude.{◌≡◌, ◌≤◌, ◌+◌, ◌∷◌, [], length, drop};
ghost use Rattle.system_model.specs.FrameLines.{before_colon};
ghost use Rattle.rank_model.specs.Lines.{rank_line, says, says_words};

use rank_model::{RankLine, RankSays};
use xs_instructions::same_name;
use xs_text::{all_allowed, next_word, number};

// What the line with a number says.
#[tactic(auto, unfolding(rank_model::specs::Lines::rank_line))]
pub fn says(at: u32, line: &[u8]) -> RankSays
    ensures { result ≡ says at line.now }
{
    if !all_allowed(line) {
        return RankSays::NoForm;
    }
    let Some((first, rest)) = next_word(line) else {
        return RankSays::Blank;
    };
    let Some((second, rest)) = next_word(rest) else {
        return one_word(at, first);
    };
    let Some((third, rest)) = next_word(rest) else {
        return RankSays::NoForm;
    };
    if next_word(rest).is_some() {
        return RankSays::NoForm;
    }
    three_words(at, first, second, third)
}

// What a line of one word says.
#[tactic(auto, unfolding(rank_model::specs::Lines::rank_line))]
fn one_word(at: u32, word: &[u8]) -> RankSays
    ensures { result ≡ says_words at (word.now ∷ []) }
{
    if same_name(b"system", word) {
        RankSays::System
    } else {
        RankSays::NoForm
    }
}

// What a line of three words says.
fn three_words(at: u32, name: &[u8], end: &[u8], rank: &[u8]) -> RankSays
    ensures { result ≡ says_words at (name.now ∷ end.now ∷ rank.now ∷ []) }
{
    match rank_line(at, name, end, rank) {
        Some(line) => RankSays::Rank(line),
        None => RankSays::NoForm,
    }
}

// `rank N:E R`: the rank R of link end E of node N.
#[tactic(auto, unfolding(rank_model::specs::Lines::rank_line))]
fn rank_line(line: u32, name: &[u8], end: &[u8], rank: &[u8]) -> Option<RankLine>
    ensures { result ≡ rank_line line (name.now ∷ end.now ∷ rank.now ∷ []) }
{
    if !same_name(b"rank", name) {
        return None;
    }
    let colon = before_colon(end);
    let node = number(&end[..colon], 99)?;
    let link_end = number(after(end, colon), 7)?;
    let rank = number(rank, 65_535)?;
    Some(RankLine {
        line,
        node: node as u8,
        end: link_end as u8,
        rank: rank as u16,
    })
}

// How many bytes of a word stand before its first colon.
fn before_colon(word: &[u8]) -> usize
    ensures value { result ≡ before_colon word.now }
    ensures within { result ≤ length word.now }
{
    word.iter().take_while(|b| **b != b':').count()
}

// The bytes of a word after one of them, the place of which may be past the last.
fn after(word: &[u8], place: usize) -> &[u8]
    requires { place ≤ length word.now }
    ensures { result.now ≡ drop (place + 1) word.now }
{
    if place < word.len() {
        &word[place + 1..]
    } else {
        &word[place..]
    }
}
