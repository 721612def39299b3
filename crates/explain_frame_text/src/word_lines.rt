//! What is meant by a word with which no form goes on.
ghost use Rattle.std.specs.Prelude.{◌≡◌, ◌++◌, ◌∷◌, [], map, OnOk};
ghost use Rattle.explain_frame_model.specs.FrameForms.{names_in};
ghost use Rattle.explain_frame_model.specs.FrameTold.{is_newer_word, is_1, beginning_line, word_line};

use crate::words;
use explain_frame_model::Inside;
use explain_model::FixedWord;
use marked_lines::append_near_words;
use std::alloc::{AllocError, Global};
use xs_base::Text;
use xs_instructions::same_name;

// `net` in a line, and `wire` as its first word.
fn is_newer_word(word: &[u8], is_first: bool) -> bool
    ensures { result ≡ is_newer_word word.now is_first }
{
    if is_first {
        same_name(b"wire", word)
    } else {
        same_name(b"net", word)
    }
}

fn is_1(inside: Inside, edition: Option<u8>) -> bool
    ensures { result ≡ is_1 inside edition }
{
    match (inside, edition) {
        (Inside::Frame, Some(edition)) => edition == 1,
        _ => false,
    }
}

// The words that begin lines which are near. The error is want of memory, here and below.
fn append_beginning(
    alloc: Global,
    out: &mut Text,
    word: &[u8],
    names: &[FixedWord],
) -> Result<(), AllocError>
    ensures { OnOk result (out.new ≡ out.old ++ beginning_line word.now names.now) }
{
    out.append(word)?;
    out.append(words::begins_no_line())?;
    append_near_words(alloc, out, word, names)
}

// Outside of the sections.
fn append_frame_beginning(
    alloc: Global,
    out: &mut Text,
    word: &[u8],
    edition: Option<u8>,
) -> Result<(), AllocError>
    ensures { OnOk result (out.new ≡ out.old ++ beginning_line word.now (names_in Inside.Frame edition)) }
{
    match edition {
        None => append_beginning(alloc, out, word, &[FixedWord::Xs1]),
        Some(2) => append_beginning(
            alloc,
            out,
            word,
            &[
                FixedWord::Node,
                FixedWord::Link,
                FixedWord::Bit,
                FixedWord::Wire,
                FixedWord::Source,
                FixedWord::Pins,
                FixedWord::Play,
            ],
        ),
        Some(_) => append_beginning(
            alloc,
            out,
            word,
            &[
                FixedWord::Node,
                FixedWord::Link,
                FixedWord::Bit,
                FixedWord::Source,
                FixedWord::Pins,
                FixedWord::Play,
            ],
        ),
    }
}

// By what the line is read as.
fn append_beginning_in(
    alloc: Global,
    out: &mut Text,
    word: &[u8],
    inside: Inside,
    edition: Option<u8>,
) -> Result<(), AllocError>
    ensures { OnOk result (out.new ≡ out.old ++ beginning_line word.now (names_in inside edition)) }
{
    match inside {
        Inside::Frame => append_frame_beginning(alloc, out, word, edition),
        Inside::Text => append_beginning(alloc, out, word, &[]),
        Inside::Schedule => append_beginning(
            alloc,
            out,
            word,
            &[
                FixedWord::Take,
                FixedWord::Run,
                FixedWord::Send,
                FixedWord::End,
            ],
        ),
    }
}

/// The line on a word, by whether it is the first of its line.
pub(crate) fn append_word_line(
    alloc: Global,
    out: &mut Text,
    inside: Inside,
    edition: Option<u8>,
    word: &[u8],
    is_first: bool,
) -> Result<(), AllocError>
    ensures { OnOk result (out.new ≡ out.old ++ word_line inside edition word.now is_first) }
{
    if is_1(inside, edition) && is_newer_word(word, is_first) {
        out.append(word)?;
        return out.append(words::of_edition_2());
    }
    if is_first {
        return append_beginning_in(alloc, out, word, inside, edition);
    }
    Ok(())
}
