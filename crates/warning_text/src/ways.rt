//! What may be wrong in a line of the frame.
ghost use Rattle.std.specs.Prelude.{◌≡◌, ◌≤◌, ◌+◌, ◌++◌, length, OnOk};
ghost use Rattle.xs_text.specs.Words.{words_of_line};
ghost use Rattle.warning_model.specs.Ways.{warnings_of_ways, warnings_of_node_with, warnings_of_node_line, warnings_of_words};
ghost use Rattle.warning_text.specs.Kept.{site_of};

use crate::doubts::{doubt_of_bit_line, doubt_of_way};
use crate::places::led_to;
use crate::warning::{Site, Warnings};
use std::alloc::{AllocError, Global};
use sys_plan::{NodePlan, Plan};
use xs_instructions::same_name;
use xs_text::{next_word, number};

// Of the ways from a node to each of these. The error is want of memory, here and below.
#[tactic(auto, unfolding(warning_model::specs::Ways::warnings_of_ways))]
fn add_ways<'a>(
    warnings: &mut Warnings<'a>,
    site: Site<'a>,
    node: &NodePlan,
    places: &[u8],
    others: &[NodePlan],
) -> Result<(), AllocError>
    requires { length others.now ≤ 16 }
    ensures { OnOk result (warnings.new ≡ warnings.old ++ warnings_of_ways (site_of site.entry) node.now places.now 0 others.now) }
{
    let mut place = 0;
    for other in others {
        warnings.add(site, doubt_of_way(node, places, place, other))?;
        place += 1;
    }
    Ok(())
}

// Of the node with a number.
#[tactic(auto, unfolding(warning_model::specs::Ways::warnings_of_node_with))]
fn add_node<'a>(
    alloc: Global,
    warnings: &mut Warnings<'a>,
    site: Site<'a>,
    plan: &Plan,
    number: u32,
) -> Result<(), AllocError>
    ensures { OnOk result (warnings.new ≡ warnings.old ++ warnings_of_node_with (site_of site.entry) plan.now number 0 plan.now.nodes) }
{
    let nodes = plan.nodes();
    let mut place = 0;
    for node in nodes {
        if u32::from(node.number) == number {
            let places = led_to(alloc, plan, place)?;
            return add_ways(warnings, site, node, &places, nodes);
        }
        place += 1;
    }
    Ok(())
}

// Of a line `node N ..`, by its number.
fn add_node_line<'a>(
    alloc: Global,
    warnings: &mut Warnings<'a>,
    site: Site<'a>,
    plan: &Plan,
    number: Option<u32>,
) -> Result<(), AllocError>
    ensures { OnOk result (warnings.new ≡ warnings.old ++ warnings_of_node_line (site_of site.entry) plan.now number) }
{
    match number {
        None => Ok(()),
        Some(number) => add_node(alloc, warnings, site, plan, number),
    }
}

/// Of a line outside of the sections, by its words.
pub(crate) fn add_words<'a>(
    alloc: Global,
    warnings: &mut Warnings<'a>,
    site: Site<'a>,
    plan: &Plan,
) -> Result<(), AllocError>
    ensures { OnOk result (warnings.new ≡ warnings.old ++ warnings_of_words plan.now (site_of site.entry) (words_of_line site.entry.bytes.now)) }
{
    let Some((name, rest)) = next_word(site.bytes) else {
        return Ok(());
    };
    let Some((first, rest)) = next_word(rest) else {
        return Ok(());
    };
    let Some((second, _)) = next_word(rest) else {
        return Ok(());
    };
    if same_name(b"bit", name) {
        warnings.add(
            site,
            doubt_of_bit_line(plan, number(first, 99), number(second, 15)),
        )
    } else if same_name(b"node", name) {
        add_node_line(alloc, warnings, site, plan, number(first, 99))
    } else {
        Ok(())
    }
}
