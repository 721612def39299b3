//! The line of a circle.
ghost use Rattle.std.specs.Prelude.{◌≡◌, ◌++◌, Some, option_map, OnOk};
ghost use Rattle.std.specs.List.{flat_map};
ghost use Rattle.look_model.specs.States.{name_in, waiter_name, link_text, circle_line};

use crate::pieces::Piece::{Input, Number, Thread, Words};
use crate::pieces::append_pieces;
use std::alloc::AllocError;
use sys_plan::NodePlan;
use xs_base::Text;
use xs_base::numbers::THREADS;

/// `circle: A > B > A`, where there is one. The error is want of memory.
pub(crate) fn append_circle(
    out: &mut Text,
    nodes: &[NodePlan],
    circle: &Option<Vec<u16>>,
) -> Result<(), AllocError>
    ensures { OnOk result (out.new ≡ out.old ++ circle_line nodes.now (option_map (λ row. row.items) circle.now)) }
{
    match circle {
        None => Ok(()),
        Some(row) => append_row(out, nodes, row),
    }
}

// The same of a row.
fn append_row(out: &mut Text, nodes: &[NodePlan], row: &[u16]) -> Result<(), AllocError>
    ensures { OnOk result (out.new ≡ out.old ++ circle_line nodes.now (Some row.now)) }
{
    let Some(first) = row.first() else {
        return Ok(());
    };
    out.append(b"circle: ")?;
    append_name(out, nodes, *first)?;
    append_links(out, nodes, &row[1..])?;
    append_link(out, nodes, *first)?;
    out.append(b"\n")
}

// ` > A` for each.
fn append_links(out: &mut Text, nodes: &[NodePlan], row: &[u16]) -> Result<(), AllocError>
    ensures { OnOk result (out.new ≡ out.old ++ flat_map (link_text nodes.now) row.now) }
{
    for at in row {
        append_link(out, nodes, *at)?;
    }
    Ok(())
}

// ` > A`.
fn append_link(out: &mut Text, nodes: &[NodePlan], at: u16) -> Result<(), AllocError>
    ensures { OnOk result (out.new ≡ out.old ++ link_text nodes.now at) }
{
    out.append(b" > ")?;
    append_name(out, nodes, at)
}

// The name of a thread or an input, by its number among those of all nodes.
fn append_name(out: &mut Text, nodes: &[NodePlan], at: u16) -> Result<(), AllocError>
    ensures { OnOk result (out.new ≡ out.old ++ waiter_name nodes.now at) }
{
    match nodes.get((at / 48) as usize) {
        None => Ok(()),
        Some(node) => append_name_in(out, node, (at % 48) as u8),
    }
}

// The same among those of a node: `nN.tK`, `nN link E` or `nN channel end ID`.
fn append_name_in(out: &mut Text, node: &NodePlan, at: u8) -> Result<(), AllocError>
    ensures { OnOk result (out.new ≡ out.old ++ name_in node.now at) }
{
    let id = node.id;
    let number = Number(u64::from(node.number));
    if at < THREADS {
        append_pieces(out, &[Words(b"n"), number, Words(b"."), Thread(at)])
    } else {
        let input = at - THREADS;
        append_pieces(
            out,
            &[Words(b"n"), number, Words(b" "), Input { id, input }],
        )
    }
}
