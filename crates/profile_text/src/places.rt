//! What is counted at the instructions of a node.
ghost use Rattle.std.specs.Prelude.{◌≡◌, ◌+◌, ◌<◌, ◌≤◌, ◌++◌, length, codes, OnOk};
ghost use Rattle.profile_model.specs.Profile.{where_text, place_line};
ghost use Rattle.run_counts.specs.Tallies.{at, HasPlaces};
ghost use Rattle.profile_text.specs.Counted.{places_by};

use crate::words::{append_count, append_node_name};
use look_words::append_place;
use run_counts::PlaceCounts;
use std::alloc::{AllocError, Global};
use sys_plan::NodePlan;
use xs_base::Text;
use xs_base::numbers::CODE_START;
use xs_printer::Printer;

/// The lines of the places of a node at which a thread issued or waited; its instructions are of these lines. The error is want of memory, here and
/// below.
pub(crate) fn append_places(
    alloc: Global,
    out: &mut Text,
    node: &NodePlan,
    lines: &[u32],
    counts: &PlaceCounts,
) -> Result<(), AllocError>
    requires places { HasPlaces counts.now (length node.now.image.code + 1) }
    ensures { OnOk result (out.new ≡ out.old ++ places_by node.now lines.now counts.now (length node.now.image.code + 1)) }
{
    let printer = Printer::new(alloc, &node.image)?;
    for place in 0..node.image.code().len() + 1 {
        append_line(out, node, &printer, lines, place, counts)?;
    }
    Ok(())
}

// That of a place.
fn append_line(
    out: &mut Text,
    node: &NodePlan,
    printer: &Printer,
    lines: &[u32],
    place: usize,
    counts: &PlaceCounts,
) -> Result<(), AllocError>
    requires printer { printer.now ≡ node.now.image }
    requires places { HasPlaces counts.now (length node.now.image.code + 1) }
    requires place { place ≤ length node.now.image.code }
    ensures { OnOk result (out.new ≡ out.old ++ place_line node.now lines.now place (at counts.now.issues.items place) (at counts.now.pauses.items place) (at counts.now.waits.items place)) }
{
    let issues = counts.issues[place];
    let waits = counts.waits[place];
    if issues == 0 && waits == 0 {
        return Ok(());
    }
    append_node_name(out, node)?;
    append_count(out, issues_word(), issues)?;
    append_count(out, pauses_word(), counts.pauses[place])?;
    append_count(out, waits_word(), waits)?;
    append_where(out, node, printer, lines, place)?;
    out.append(b"\n")?;
    Ok(())
}

// Where that is.
fn append_where(
    out: &mut Text,
    node: &NodePlan,
    printer: &Printer,
    lines: &[u32],
    place: usize,
) -> Result<(), AllocError>
    requires printer { printer.now ≡ node.now.image }
    requires place { place ≤ length node.now.image.code }
    ensures { OnOk result (out.new ≡ out.old ++ where_text lines.now node.now.image place) }
{
    if place < node.image.code().len() {
        append_place(
            out,
            &node.image,
            printer,
            lines,
            CODE_START + 4 * place as u32,
        )
    } else {
        out.append(nowhere())
    }
}

fn nowhere() -> &'static [u8]
    ensures { result.now ≡ codes " at no instruction" }
{
    b" at no instruction"
}

fn issues_word() -> &'static [u8]
    ensures { result.now ≡ codes " issues " }
{
    b" issues "
}

fn pauses_word() -> &'static [u8]
    ensures { result.now ≡ codes " pauses " }
{
    b" pauses "
}

fn waits_word() -> &'static [u8]
    ensures { result.now ≡ codes " waits " }
{
    b" waits "
}
