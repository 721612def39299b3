//! What is meant by a line whose form is good.
ghost use Rattle.std.specs.Prelude.{◌≡◌, ◌++◌, map, OnOk};
ghost use Rattle.xs_base.specs.Ids.{port_width};
ghost use Rattle.explain_frame_text.specs.LineWords.{word_of};
ghost use Rattle.explain_frame_model.specs.FrameWords.{both_line, width_text, widths_line, too_many_line, no_source_line};
ghost use Rattle.explain_frame_model.specs.FrameTold.{meant_by_words};

use crate::line_words::{LineWord, begins, word_at};
use crate::twice::{append_end_again, bit_again, gift_again, id_again, pin_again};
use crate::unknown::{append_unknown, node_in};
use crate::words as texts;
use decimal_text::append_decimal;
use frame_lines::{EarlierLine, append_already, back_of, giver, node_of, port_in};
use std::alloc::{AllocError, Global};
use system_model::SysKind;
use xs_base::{Text, port_width};

fn append_both(out: &mut Text, words: &[LineWord]) -> Result<(), AllocError>
    ensures { OnOk result (out.new ≡ out.old ++ both_line (map word_of words.now)) }
{
    out.append(texts::both_of_node())?;
    append_decimal(out, u64::from(node_of(word_at(words, 2).bytes)))?;
    out.append(b"\n")
}

// How many pins a port has. The definition has a number that is no port's as wide as the last one.
#[tactic(auto, using(crate::proofs::Widths::width_capped))]
fn width_of(port: u8) -> u32
    ensures { result ≡ port_width port }
{
    port_width(port.min(28))
}

fn append_width(out: &mut Text, word: &[u8]) -> Result<(), AllocError>
    ensures { OnOk result (out.new ≡ out.old ++ width_text word.now) }
{
    out.append(back_of(word))?;
    out.append(texts::has_width())?;
    append_decimal(out, u64::from(width_of(port_in(word))))
}

fn append_widths(out: &mut Text, a: &[u8], b: &[u8]) -> Result<(), AllocError>
    ensures { OnOk result (out.new ≡ out.old ++ widths_line a.now b.now) }
{
    out.append(b"port ")?;
    append_width(out, a)?;
    out.append(b", port ")?;
    append_width(out, b)?;
    out.append(b"\n")
}

fn append_too_many(out: &mut Text, words: &[LineWord]) -> Result<(), AllocError>
    ensures { OnOk result (out.new ≡ out.old ++ too_many_line (map word_of words.now)) }
{
    if begins(b"node", words) {
        out.append(texts::too_many_nodes())
    } else {
        out.append(texts::too_many_links())
    }
}

fn append_no_source(out: &mut Text, words: &[LineWord]) -> Result<(), AllocError>
    ensures { OnOk result (out.new ≡ out.old ++ no_source_line (map word_of words.now)) }
{
    out.append(texts::no_source())?;
    append_decimal(out, u64::from(node_in(words)))?;
    out.append(texts::comes())
}

/// The last line, where there is one. The error is want of memory.
pub(crate) fn append_meant(
    alloc: Global,
    out: &mut Text,
    kind: SysKind,
    lines: &[EarlierLine],
    words: &[LineWord],
) -> Result<(), AllocError>
    ensures { OnOk result (out.new ≡ out.old ++ meant_by_words kind lines.now (map word_of words.now)) }
{
    match kind {
        SysKind::GivenTwice => append_already(out, giver(gift_again(words), lines)),
        SysKind::IdTwice => append_already(out, giver(id_again(words), lines)),
        SysKind::LinkEndTwice => append_end_again(out, lines, words),
        SysKind::LinkToItself | SysKind::WireWithinNode => append_both(out, words),
        SysKind::NodeWithoutSource => append_no_source(out, words),
        SysKind::SectionNotEnded => out.append(texts::no_end()),
        SysKind::BitTwice => append_already(out, giver(bit_again(words), lines)),
        SysKind::NoSuchNode => append_unknown(alloc, out, lines, words),
        SysKind::TooMany => append_too_many(out, words),
        SysKind::WidthsDiffer => append_widths(
            out,
            word_at(words, 1).bytes,
            word_at(words, 2).bytes,
        ),
        SysKind::PinWiredTwice => append_already(out, giver(pin_again(words), lines)),
        SysKind::TooManyWires => out.append(texts::too_many_wires()),
        _ => Ok(()),
    }
}
