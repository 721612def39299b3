//! The rows of a block.
ghost use Rattle.std.specs.Prelude.{◌≡◌, ◌+◌, ◌*◌, ◌<◌, ◌++◌, slice_index_or, codes, decimal, OnOk};
ghost use Rattle.chart_model.specs.declared.TheConstants.{ROWS};
ghost use Rattle.chart_model.specs.Chart.{chan_row_name, token_row_name, row_name, blank_char, is_blank, row_text, row_of, node_rows, rows_text};

use crate::padding::pad_to;
use chart_model::{NAME_COLUMNS, ROWS};
use decimal_text::append_decimal;
use look_words::append_thread_name;
use std::alloc::{AllocError, Global};
use sys_plan::{NodePlan, Plan};
use xs_base::Text;

/// The rows of all nodes of a plan in which there is something to see, where each slot has one of these columns. The error is want of memory,
/// here and below.
#[tactic(auto, unfolding(trace_model::specs::Trace::by_position))]
pub(crate) fn append_rows(
    alloc: Global,
    out: &mut Text,
    plan: &Plan,
    columns: &[Text],
) -> Result<(), AllocError>
    ensures { OnOk result (out.new ≡ out.old ++ rows_text columns.now plan.now.nodes) }
{
    plan.keeps();
    let nodes = plan.nodes();
    for n in 0..nodes.len() {
        append_node(alloc, out, columns, n as u8, &nodes[n])?;
    }
    Ok(())
}

// Those of the node at a position.
fn append_node(
    alloc: Global,
    out: &mut Text,
    columns: &[Text],
    n: u8,
    node: &NodePlan,
) -> Result<(), AllocError>
    ensures { OnOk result (out.new ≡ out.old ++ node_rows columns.now n node.now ROWS) }
{
    for i in 0..ROWS {
        append_row(alloc, out, columns, node, i as u8, ROWS * u32::from(n) + i)?;
    }
    Ok(())
}

// A row of a node, by its number among its own and among all, where there is something to see.
fn append_row(
    alloc: Global,
    out: &mut Text,
    columns: &[Text],
    node: &NodePlan,
    i: u8,
    r: u32,
) -> Result<(), AllocError>
    ensures { OnOk result (out.new ≡ out.old ++ row_text node.now i (row_of columns.now r)) }
{
    if is_blank(columns, blank_char(i), r) {
        return Ok(());
    }
    let mut name = Text::new(alloc);
    append_name(&mut name, node.number, i)?;
    pad_to(&mut name, NAME_COLUMNS as usize)?;
    out.append(name.bytes())?;
    append_chars(out, columns, r)?;
    out.append(b"\n")
}

// What the row shows where there is nothing to see.
fn blank_char(i: u8) -> u8
    ensures { result ≡ blank_char i }
{
    if i < 8 { b'-' } else { b'.' }
}

// Whether it shows that in all slots.
fn is_blank(columns: &[Text], blank: u8, r: u32) -> bool
    ensures { result ≡ is_blank blank (row_of columns.now r) }
{
    for column in columns {
        if char_in(column, r) != blank {
            return false;
        }
    }
    true
}

// What it shows.
fn append_chars(out: &mut Text, columns: &[Text], r: u32) -> Result<(), AllocError>
    ensures { OnOk result (out.new ≡ out.old ++ row_of columns.now r) }
{
    for column in columns {
        out.append(&[char_in(column, r)])?;
    }
    Ok(())
}

fn char_in(column: &Text, r: u32) -> u8
    ensures { result ≡ slice_index_or column.now r 0 }
{
    match column.bytes().get(r as usize) {
        None => 0,
        Some(c) => *c,
    }
}

// `nN.tT`, `nN link E`, `nN chan C` or `nN chan C out`.
fn append_name(name: &mut Text, number: u8, i: u8) -> Result<(), AllocError>
    ensures { OnOk result (name.new ≡ name.old ++ (codes "n" ++ (decimal number ++ row_name i))) }
{
    name.append(b"n")?;
    append_decimal(name, u64::from(number))?;
    append_row_name(name, i)?;
    Ok(())
}

fn append_row_name(name: &mut Text, i: u8) -> Result<(), AllocError>
    ensures { OnOk result (name.new ≡ name.old ++ row_name i) }
{
    if i < 8 {
        name.append(b".")?;
        append_thread_name(name, i)
    } else {
        append_token_row_name(name, i - 8)
    }
}

fn append_token_row_name(name: &mut Text, i: u8) -> Result<(), AllocError>
    ensures { OnOk result (name.new ≡ name.old ++ token_row_name i) }
{
    if i < 8 {
        name.append(b" link ")?;
        append_decimal(name, u64::from(i))
    } else {
        append_chan_row_name(name, i - 8)
    }
}

fn append_chan_row_name(name: &mut Text, i: u8) -> Result<(), AllocError>
    ensures { OnOk result (name.new ≡ name.old ++ chan_row_name i) }
{
    name.append(b" chan ")?;
    if i < 32 {
        return append_decimal(name, u64::from(i));
    }
    append_decimal(name, u64::from(i - 32))?;
    name.append(b" out")
}
