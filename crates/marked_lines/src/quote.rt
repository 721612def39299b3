//! A line as it stands, with a mark under one of its places, and what is accepted there.
ghost use Rattle.std.specs.Prelude.{◌≡◌, ◌≤◌, ◌++◌, length, map, flat_map, codes, OnOk};
ghost use Rattle.explain_model.specs.Wants.{want_text};
ghost use Rattle.explain_model.specs.Quote.{shown_byte, under_byte, line_shown, mark_shown, accepted_text};

use crate::wants::append_want;
use crate::words;
use decimal_text::append_decimal;
use explain_model::Want;
use itoa::Buffer;
use std::alloc::AllocError;
use xs_base::Text;
use xs_text::is_allowed;

// A byte that a text may not hold is written as `?`.
fn shown_byte(b: u8) -> u8
    ensures { result ≡ shown_byte b }
{
    if is_allowed(b) { b } else { b'?' }
}

// What stands under a byte.
fn under_byte(b: u8) -> u8
    ensures { result ≡ under_byte b }
{
    if b == b'\t' { b'\t' } else { b' ' }
}

fn append_shown(out: &mut Text, line: &[u8]) -> Result<(), AllocError>
    ensures { OnOk result (out.new ≡ out.old ++ map shown_byte line.now) }
{
    for b in line {
        out.append(&[shown_byte(*b)])?;
    }
    Ok(())
}

fn append_under(out: &mut Text, line: &[u8]) -> Result<(), AllocError>
    ensures { OnOk result (out.new ≡ out.old ++ map under_byte line.now) }
{
    for b in line {
        out.append(&[under_byte(*b)])?;
    }
    Ok(())
}

/// ` | ` and the line, behind its number. The error is want of memory, here and below.
pub fn append_line(out: &mut Text, number: u32, line: &[u8]) -> Result<(), AllocError>
    ensures { OnOk result (out.new ≡ out.old ++ line_shown number line.now) }
{
    append_decimal(out, u64::from(number))?;
    out.append(b" | ")?;
    append_shown(out, line)?;
    out.append(b"\n")
}

/// The mark in the line below, at a place that is counted from 0. The error is want of memory, here and below.
pub fn append_mark(out: &mut Text, number: u32, line: &[u8], at: usize) -> Result<(), AllocError>
    requires { at ≤ length line.now }
    ensures { OnOk result (out.new ≡ out.old ++ mark_shown number line.now at) }
{
    let mut buffer = Buffer::new();
    append_under(out, buffer.format(number).as_bytes())?;
    out.append(b" | ")?;
    append_under(out, &line[..at])?;
    out.append(b"^\n")
}

// Each behind a semicolon.
fn append_others(out: &mut Text, wants: &[Want]) -> Result<(), AllocError>
    ensures { OnOk result (out.new ≡ out.old ++ flat_map (λ more. codes "; " ++ want_text more) wants.now) }
{
    for want in wants {
        out.append(b"; ")?;
        append_want(out, *want)?;
    }
    Ok(())
}

/// What is accepted at the mark. See docs/LOOK.md.
pub fn append_accepted(out: &mut Text, wants: &[Want]) -> Result<(), AllocError>
    ensures { OnOk result (out.new ≡ out.old ++ accepted_text wants.now) }
{
    match wants {
        [] => Ok(()),
        [want, others @ ..] => {
            out.append(words::accepted_here())?;
            append_want(out, *want)?;
            append_others(out, others)?;
            out.append(b"\n")
        }
    }
}
