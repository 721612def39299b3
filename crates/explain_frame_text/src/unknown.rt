//! Nodes and ends that a line names and no line before gives.
ghost use Rattle.std.specs.Prelude.{◌≡◌, ◌++◌, not, find, map, option_map, OnOk};
ghost use Rattle.explain_model.specs.Words.{PlacedWord};
ghost use Rattle.explain_frame_text.specs.LineWords.{word_of};
ghost use Rattle.explain_frame_model.specs.FrameGifts.{value_of, is_given};
ghost use Rattle.explain_frame_model.specs.FrameWords.{is_unknown_node, unknown_node, node_in, wires_of, or_no_word, unknown_end, unknown_word, nodes_line, ends_line, unknown_line};

use crate::line_words::{LineWord, begins, behind_three, no_word, word_at};
use crate::words as texts;
use decimal_text::append_decimal;
use explain_frame_model::Gift;
use frame_lines::{
    EarlierLine, append_ends, append_nodes, count_givers, is_given, node_of, value_of,
};
use std::alloc::{AllocError, Global};
use xs_base::Text;

fn is_unknown_node(lines: &[EarlierLine], word: LineWord) -> bool
    ensures { result ≡ is_unknown_node lines.now (word_of word.entry) }
{
    !is_given(Gift::Node(node_of(word.bytes)), lines)
}

// The first word that names a node that no line gives.
fn unknown_node<'a>(lines: &[EarlierLine], words: &[LineWord<'a>]) -> Option<LineWord<'a>>
    ensures { option_map word_of result ≡ unknown_node lines.now (map word_of words.now) }
{
    let first = word_at(words, 1);
    if is_unknown_node(lines, first) {
        return Some(first);
    }
    let second = word_at(words, 2);
    let names_two = begins(b"link", words) || begins(b"wire", words);
    if names_two && is_unknown_node(lines, second) {
        return Some(second);
    }
    None
}

/// The node whose ends a line names, or that it gives.
pub(crate) fn node_in(words: &[LineWord]) -> u32
    ensures { result ≡ node_in (map word_of words.now) }
{
    node_of(word_at(words, 1).bytes)
}

// How many wires of that node count.
fn wires_of(lines: &[EarlierLine], words: &[LineWord]) -> usize
    ensures { result ≡ wires_of lines.now (map word_of words.now) }
{
    if begins(b"take", words) {
        count_givers(Gift::WireTo(node_in(words)), lines)
    } else if begins(b"send", words) {
        count_givers(Gift::WireFrom(node_in(words)), lines)
    } else {
        0
    }
}

// The first word that is an end of a node that no link has.
fn unlinked_end<'a>(lines: &[EarlierLine], node: u32, words: &[LineWord<'a>]) -> LineWord<'a>
    ensures { word_of result ≡ or_no_word (find (λ (word : PlacedWord). not (is_given (Gift.LinkEnd node (value_of word.bytes)) lines.now)) (map word_of words.now)) }
{
    match words {
        [] => no_word(),
        [word, others @ ..] => {
            if is_given(Gift::LinkEnd(node, value_of(word.bytes)), lines) {
                unlinked_end(lines, node, others)
            } else {
                *word
            }
        }
    }
}

// The first word that names an end that no line gives.
fn unknown_end<'a>(lines: &[EarlierLine], words: &[LineWord<'a>]) -> LineWord<'a>
    ensures { word_of result ≡ unknown_end lines.now (map word_of words.now) }
{
    if begins(b"bit", words) {
        unlinked_end(lines, node_in(words), behind_three(words))
    } else {
        word_at(words, 1)
    }
}

/// The first word that names a node that no line gives, or else an end.
pub(crate) fn unknown_word<'a>(lines: &[EarlierLine], words: &[LineWord<'a>]) -> LineWord<'a>
    ensures { word_of result ≡ unknown_word lines.now (map word_of words.now) }
{
    match unknown_node(lines, words) {
        Some(word) => word,
        None => unknown_end(lines, words),
    }
}

fn append_nodes_line(alloc: Global, out: &mut Text, lines: &[EarlierLine]) -> Result<(), AllocError>
    ensures { OnOk result (out.new ≡ out.old ++ nodes_line lines.now) }
{
    out.append(texts::nodes_given_before())?;
    append_nodes(alloc, out, lines)?;
    out.append(b"\n")
}

fn append_ends_line(
    alloc: Global,
    out: &mut Text,
    node: u32,
    wires: usize,
    lines: &[EarlierLine],
) -> Result<(), AllocError>
    ensures { OnOk result (out.new ≡ out.old ++ ends_line node wires lines.now) }
{
    out.append(texts::ends_of_node())?;
    append_decimal(out, u64::from(node))?;
    out.append(texts::given_before())?;
    append_ends(alloc, out, node, wires, lines)?;
    out.append(b"\n")
}

/// The nodes that lines give, or the ends of the node. The error is want of memory.
pub(crate) fn append_unknown(
    alloc: Global,
    out: &mut Text,
    lines: &[EarlierLine],
    words: &[LineWord],
) -> Result<(), AllocError>
    ensures { OnOk result (out.new ≡ out.old ++ unknown_line lines.now (map word_of words.now)) }
{
    match unknown_node(lines, words) {
        Some(_) => append_nodes_line(alloc, out, lines),
        None => append_ends_line(alloc, out, node_in(words), wires_of(lines, words), lines),
    }
}
