//! What may be wrong with the labels of a line.
ghost use Rattle.std.specs.Prelude.{◌≡◌, ◌++◌, option_map, OnOk};
ghost use Rattle.explain_model.specs.Placed.{placed_labels, placed_tokens};
ghost use Rattle.warning_model.specs.Source.{doubt_of_label, warnings_of_labels};
ghost use Rattle.warning_text.specs.Kept.{doubt_of, site_of};

use crate::names::is_named;
use crate::warning::{Doubt, Site, Warnings};
use placed_tokens::next_label;
use std::alloc::AllocError;
use xs_instructions::{Symbols, same_name};

// Of a label, which is one of the code behind the last instruction or not.
fn doubt_of_label<'a>(names: &Symbols, behind: bool, label: &'a [u8]) -> Option<Doubt<'a>>
    ensures { option_map doubt_of result ≡ doubt_of_label names.now.labels behind label.now }
{
    if is_named(names, label) {
        if behind {
            return Some(Doubt::NothingBehind(label));
        }
        return None;
    }
    if same_name(b"main", label) {
        return None;
    }
    Some(Doubt::LabelUnnamed(label))
}

/// Of the labels of a line. The error is want of memory.
#[tactic(auto, unfolding(warning_model::specs::Source::warnings_of_labels))]
pub(crate) fn add_labels<'a>(
    warnings: &mut Warnings<'a>,
    site: Site<'a>,
    names: &Symbols,
    behind: bool,
) -> Result<(), AllocError>
    ensures { OnOk result (warnings.new ≡ warnings.old ++ warnings_of_labels (site_of site.entry) names.now.labels behind (placed_labels (placed_tokens site.entry.bytes.now))) }
{
    let mut at = 0;
    while let Some((label, next)) = next_label(site.bytes, at) {
        warnings.add(site, doubt_of_label(names, behind, label.bytes))?;
        at = next;
    }
    Ok(())
}
