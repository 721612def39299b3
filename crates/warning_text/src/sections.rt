//! Lines that begin sections.
ghost use Rattle.std.specs.Prelude.{◌≡◌};
ghost use Rattle.warning_model.specs.Warnings.{begins_section, begins_source};

use frame_lines::{Opening, opening_of};
use system_model::SectionKind;

/// Whether a line outside of the sections begins one.
pub(crate) fn begins_section(line: &[u8]) -> bool
    ensures { result ≡ begins_section line.now }
{
    match opening_of(line) {
        Opening::Nothing => false,
        Opening::Section(_) => true,
        Opening::Other => true,
    }
}

/// Whether a line outside of the sections begins the source of the node with a number.
pub(crate) fn begins_source(node: u8, line: &[u8]) -> bool
    ensures { result ≡ begins_source node line.now }
{
    match opening_of(line) {
        Opening::Section(SectionKind::Source(n)) => n == node,
        _ => false,
    }
}
