//! What a line gives that is given already.
ghost use Rattle.std.specs.Prelude.{◌≡◌, ◌++◌, [], map, OnOk};
ghost use Rattle.explain_frame_text.specs.LineWords.{word_of};
ghost use Rattle.explain_frame_model.specs.FrameGifts.{giver};
ghost use Rattle.explain_frame_model.specs.FrameWords.{gift_again, word_again, id_again, bit_again, pin_again, has_value, first_repeated, link_end, end_again, link_end_again, end_again_line};

use crate::line_words::{LineWord, begins, behind_three, no_word, word_at};
use crate::words as texts;
use explain_frame_model::Gift;
use frame_lines::{EarlierLine, append_already, end_of, giver, node_of, port_in, value_of};
use std::alloc::AllocError;
use xs_base::Text;

/// What `node N`, `source N`, `pins` or `play` gives.
pub(crate) fn gift_again(words: &[LineWord]) -> Gift
    ensures { result ≡ gift_again (map word_of words.now) }
{
    if begins(b"node", words) {
        Gift::Node(value_of(word_at(words, 1).bytes))
    } else if begins(b"source", words) {
        Gift::Source(value_of(word_at(words, 1).bytes))
    } else if begins(b"pins", words) {
        Gift::Pins
    } else {
        Gift::Play
    }
}

/// The word that says which.
pub(crate) fn word_again<'a>(words: &[LineWord<'a>]) -> LineWord<'a>
    ensures { word_of result ≡ word_again (map word_of words.now) }
{
    if begins(b"node", words) || begins(b"source", words) {
        word_at(words, 1)
    } else {
        word_at(words, 0)
    }
}

/// The id of a node.
pub(crate) fn id_again(words: &[LineWord]) -> Gift
    ensures { result ≡ id_again (map word_of words.now) }
{
    Gift::Id(value_of(word_at(words, 3).bytes))
}

/// The bit of a node.
pub(crate) fn bit_again(words: &[LineWord]) -> Gift
    ensures { result ≡ bit_again (map word_of words.now) }
{
    Gift::Bit(
        value_of(word_at(words, 1).bytes),
        value_of(word_at(words, 2).bytes),
    )
}

/// The pin to which a wire comes.
pub(crate) fn pin_again(words: &[LineWord]) -> Gift
    ensures { result ≡ pin_again (map word_of words.now) }
{
    Gift::Pin(
        node_of(word_at(words, 2).bytes),
        port_in(word_at(words, 2).bytes),
    )
}

// Whether one of some words has a value.
fn has_value(value: u32, words: &[LineWord]) -> bool
    ensures { result ≡ has_value value (map word_of words.now) }
{
    match words {
        [] => false,
        [word, others @ ..] => value_of(word.bytes) == value || has_value(value, others),
    }
}

// The first word that has the value of one before it.
#[tactic(auto, unfolding(explain_frame_model::specs::FrameWords::first_repeated))]
fn first_repeated<'a>(words: &[LineWord<'a>]) -> LineWord<'a>
    ensures { word_of result ≡ first_repeated [] (map word_of words.now) }
{
    for k in 0..words.len() {
        let word = words[k];
        if has_value(value_of(word.bytes), &words[..k]) {
            return word;
        }
    }
    no_word()
}

fn link_end(word: &[u8]) -> Gift
    ensures { result ≡ link_end word.now }
{
    Gift::LinkEnd(node_of(word), end_of(word))
}

// The number of the first line that gives the link end that a word names.
fn giver_of_end(lines: &[EarlierLine], word: LineWord) -> Option<u32>
    ensures { result ≡ giver (link_end (word_of word.entry).bytes) lines.now }
{
    giver(link_end(word.bytes), lines)
}

// The first of the ends of a link that an earlier link has.
fn end_again<'a>(lines: &[EarlierLine], words: &[LineWord<'a>]) -> LineWord<'a>
    ensures { word_of result ≡ end_again lines.now (map word_of words.now) }
{
    let first = word_at(words, 1);
    if giver_of_end(lines, first).is_some() {
        first
    } else {
        word_at(words, 2)
    }
}

/// The same, or of a bit the first of its link ends that stands before it.
pub(crate) fn link_end_again<'a>(lines: &[EarlierLine], words: &[LineWord<'a>]) -> LineWord<'a>
    ensures { word_of result ≡ link_end_again lines.now (map word_of words.now) }
{
    if begins(b"bit", words) {
        first_repeated(behind_three(words))
    } else {
        end_again(lines, words)
    }
}

/// The line that gives it. The error is want of memory.
pub(crate) fn append_end_again(
    out: &mut Text,
    lines: &[EarlierLine],
    words: &[LineWord],
) -> Result<(), AllocError>
    ensures { OnOk result (out.new ≡ out.old ++ end_again_line lines.now (map word_of words.now)) }
{
    if begins(b"bit", words) {
        return out.append(texts::this_line_gives());
    }
    append_already(out, giver_of_end(lines, end_again(lines, words)))
}
