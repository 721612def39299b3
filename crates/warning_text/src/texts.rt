//! What is written of warnings.
ghost use Rattle.std.specs.Prelude.{◌≡◌, ◌<◌, ◌++◌, map, take, option_map, OnOk};
ghost use Rattle.explain_model.specs.Meant.{hex_digit};
ghost use Rattle.warning_model.specs.declared.TheConstants.{MOST_WARNINGS};
ghost use Rattle.warning_model.specs.Warning as model;
ghost use Rattle.warning_model.specs.Texts.{four_digits, id_text, value_text, place_text, no_line_text, no_way_text, doubt_text, warning_text, is_of_line, line_below, told_text, more_text, warnings_text};
ghost use Rattle.warning_text.specs.Kept.{doubt_of, place_of, site_of, warning_of};

use crate::warning::{Doubt, InSource, Site, Warning, Warnings};
use crate::words;
use decimal_text::append_decimal;
use marked_lines::append_line;
use std::alloc::AllocError;
use warning_model::MOST_WARNINGS;
use xs_base::Text;

fn hex_digit(d: u8) -> u8
    requires { d < 16 }
    ensures { result ≡ hex_digit d }
{
    if d < 10 { b'0' + d } else { b'a' + (d - 10) }
}

// Four hex digits. The error is want of memory, here and below.
#[tactic(auto, unfolding(warning_model::specs::Texts::four_digits))]
fn append_digits(out: &mut Text, n: u16) -> Result<(), AllocError>
    ensures { OnOk result (out.new ≡ out.old ++ four_digits n) }
{
    out.append(&[
        hex_digit((n / 4_096 % 16) as u8),
        hex_digit((n / 256 % 16) as u8),
        hex_digit((n / 16 % 16) as u8),
        hex_digit((n % 16) as u8),
    ])
}

fn append_id(out: &mut Text, id: u16) -> Result<(), AllocError>
    ensures { OnOk result (out.new ≡ out.old ++ id_text id) }
{
    out.append(b"0x")?;
    append_digits(out, id)
}

fn append_value(out: &mut Text, value: u32) -> Result<(), AllocError>
    ensures { OnOk result (out.new ≡ out.old ++ value_text value) }
{
    out.append(b"0x")?;
    append_digits(out, (value / 65_536) as u16)?;
    append_digits(out, (value % 65_536) as u16)
}

// The line that a warning is of.
fn append_place(out: &mut Text, site: Site) -> Result<(), AllocError>
    ensures { OnOk result (out.new ≡ out.old ++ place_text (option_map place_of site.entry.source) site.entry.number) }
{
    match site.source {
        None => {
            out.append(b"system line ")?;
            append_decimal(out, u64::from(site.number))
        }
        Some(InSource { node, line }) => {
            out.append(b"source ")?;
            append_decimal(out, u64::from(node))?;
            out.append(b" line ")?;
            append_decimal(out, u64::from(line))
        }
    }
}

fn append_no_difference(out: &mut Text, node: u8, bit: u8) -> Result<(), AllocError>
    ensures { OnOk result (out.new ≡ out.old ++ doubt_text (model.NoDifference node bit)) }
{
    out.append(words::no_difference())?;
    append_decimal(out, u64::from(node))?;
    out.append(words::first_in_bit())?;
    append_decimal(out, u64::from(bit))
}

// `: it has no line bit N B`
#[tactic(auto, unfolding(warning_model::specs::Texts::no_line_text))]
fn append_no_line(out: &mut Text, node: u8, bit: u8) -> Result<(), AllocError>
    ensures { OnOk result (out.new ≡ out.old ++ no_line_text node bit) }
{
    out.append(words::no_line())?;
    append_decimal(out, u64::from(node))?;
    out.append(b" ")?;
    append_decimal(out, u64::from(bit))
}

// ` has no way to node M` and the reason
#[tactic(auto, unfolding(warning_model::specs::Texts::no_way_text))]
fn append_way_to(out: &mut Text, node: u8, other: u8, bit: u8) -> Result<(), AllocError>
    ensures { OnOk result (out.new ≡ out.old ++ no_way_text node other bit) }
{
    out.append(words::no_way())?;
    append_decimal(out, u64::from(other))?;
    append_no_line(out, node, bit)
}

fn append_no_way(out: &mut Text, node: u8, other: u8, bit: u8) -> Result<(), AllocError>
    ensures { OnOk result (out.new ≡ out.old ++ doubt_text (model.NoWay node other bit)) }
{
    out.append(b"node ")?;
    append_decimal(out, u64::from(node))?;
    append_way_to(out, node, other, bit)
}

fn append_no_such_id(out: &mut Text, value: u32) -> Result<(), AllocError>
    ensures { OnOk result (out.new ≡ out.old ++ doubt_text (model.NoSuchId value)) }
{
    out.append(words::no_node())?;
    append_id(out, (value / 65_536) as u16)?;
    out.append(b" of ")?;
    append_value(out, value)
}

fn append_doubt(out: &mut Text, doubt: Doubt) -> Result<(), AllocError>
    ensures { OnOk result (out.new ≡ out.old ++ doubt_text (doubt_of doubt.entry)) }
{
    match doubt {
        Doubt::NoDifference { node, bit } => append_no_difference(out, node, bit),
        Doubt::NoWay { node, other, bit } => append_no_way(out, node, other, bit),
        Doubt::CodeEnds => out.append(words::code_ends()),
        Doubt::NothingBehind(label) => {
            out.append(words::nothing_behind())?;
            out.append(label)
        }
        Doubt::LabelUnnamed(label) => {
            out.append(b"the label ")?;
            out.append(label)?;
            out.append(words::named_nowhere())
        }
        Doubt::RegisterUnnamed(register) => {
            out.append(register)?;
            out.append(words::named_nowhere_else())
        }
        Doubt::NoSuchId(value) => append_no_such_id(out, value),
    }
}

#[tactic(auto, unfolding(warning_model::specs::Texts::warning_text))]
fn append_warning(out: &mut Text, warning: Warning) -> Result<(), AllocError>
    ensures { OnOk result (out.new ≡ out.old ++ warning_text (warning_of warning.entry)) }
{
    append_place(out, warning.site)?;
    out.append(words::warning())?;
    append_doubt(out, warning.doubt)?;
    out.append(b"\n")
}

// Whether the first of these is of the line with a number in the whole text.
fn is_of_line(number: u32, warnings: &[Warning]) -> bool
    ensures { result ≡ is_of_line number (map warning_of warnings.now) }
{
    match warnings {
        [] => false,
        [warning, ..] => warning.site.number == number,
    }
}

// The line below the last of its warnings, where these come behind one.
fn append_below(out: &mut Text, site: Site, warnings: &[Warning]) -> Result<(), AllocError>
    ensures { OnOk result (out.new ≡ out.old ++ line_below (site_of site.entry) (map warning_of warnings.now)) }
{
    if is_of_line(site.number, warnings) {
        return Ok(());
    }
    append_line(out, site.number, site.bytes)
}

#[tactic(auto, unfolding(warning_model::specs::Texts::told_text))]
fn append_told(out: &mut Text, warnings: &[Warning]) -> Result<(), AllocError>
    ensures { OnOk result (out.new ≡ out.old ++ told_text (map warning_of warnings.now)) }
{
    let mut left = warnings;
    while let [warning, others @ ..] = left {
        append_warning(out, *warning)?;
        append_below(out, warning.site, others)?;
        left = others;
    }
    Ok(())
}

// How many there are more.
fn append_more(out: &mut Text, count: usize) -> Result<(), AllocError>
    ensures { OnOk result (out.new ≡ out.old ++ more_text count) }
{
    if count <= MOST_WARNINGS {
        return Ok(());
    }
    out.append(b"more ")?;
    append_decimal(out, (count - MOST_WARNINGS) as u64)?;
    out.append(b"\n")
}

// Those that are told.
fn first_ones<'a, 'b>(warnings: &'b [Warning<'a>]) -> &'b [Warning<'a>]
    ensures { result.now ≡ take MOST_WARNINGS warnings.now }
{
    if warnings.len() <= MOST_WARNINGS {
        return warnings;
    }
    &warnings[..MOST_WARNINGS]
}

#[tactic(auto, using(crate::proofs::Told::take_told))]
fn append_first(out: &mut Text, warnings: &[Warning]) -> Result<(), AllocError>
    ensures { OnOk result (out.new ≡ out.old ++ told_text (take MOST_WARNINGS (map warning_of warnings.now))) }
{
    append_told(out, first_ones(warnings))
}

/// The first warnings, and how many there are more.
#[tactic(auto, unfolding(warning_model::specs::Texts::warnings_text), using(crate::proofs::Told::count_told))]
pub(crate) fn append_all(out: &mut Text, warnings: &Warnings) -> Result<(), AllocError>
    ensures { OnOk result (out.new ≡ out.old ++ warnings_text warnings.now) }
{
    let all = warnings.all();
    append_first(out, all)?;
    append_more(out, all.len())
}
