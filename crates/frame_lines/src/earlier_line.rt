//! A line of the frame that stands before another one.
ghost use Rattle.std.specs.Prelude.{ℕ, suc, List, ◌≡◌, ◌++◌, [], get_or, option_to_list};
ghost use Rattle.xs_text.specs.Words.{words_of_line};
ghost use Rattle.explain_frame_model.specs.FrameBefore as model;
ghost use Rattle.explain_frame_model.specs.FrameBefore.{put_line};

use explain_frame_model::Inside;
use std::marker::Model;
use xs_text::next_word;

/// A line of a system text that stands outside of its sections and has words: its number, from 1, and its first four words, each empty where there is
/// none. See docs/LOOK.md.
#[derive(Drop)]
pub struct EarlierLine<'a> {
    pub number: u32,
    pub name: &'a [u8],
    pub second: &'a [u8],
    pub third: &'a [u8],
    pub fourth: &'a [u8],
}

impl<'a> Model for EarlierLine<'a> {
    ghost use Rattle.explain_frame_model.specs.FrameBefore.{EarlierLine};

    ghost Value = { EarlierLine };

    ghost view = { λ l. record { number = l.number; name = l.name.now; second = l.second.now; third = l.third.now; fourth = l.fourth.now } };
}

// The first word, none where there is none, and what is left of the line.
fn word_or_none(line: &[u8]) -> (&[u8], &[u8])
    ensures word { result.0.now ≡ get_or (words_of_line line.now) 0 [] }
    ensures others { (i : ℕ) → get_or (words_of_line line.now) (suc i) [] ≡ get_or (words_of_line result.1.now) i [] }
{
    match next_word(line) {
        Some((word, rest)) => (word, rest),
        None => (b"", b""),
    }
}

/// A line with a number, where it has words and stands outside of the sections.
pub(crate) fn earlier_line(inside: Inside, number: u32, line: &[u8]) -> Option<EarlierLine<'_>>
    ensures { (after : List model.EarlierLine) → option_to_list result ++ after ≡ put_line inside number (words_of_line line.now) after }
{
    let Inside::Frame = inside else {
        return None;
    };
    let (name, rest) = next_word(line)?;
    let (second, rest) = word_or_none(rest);
    let (third, rest) = word_or_none(rest);
    let (fourth, _) = word_or_none(rest);
    Some(EarlierLine {
        number,
        name,
        second,
        third,
        fourth,
    })
}
