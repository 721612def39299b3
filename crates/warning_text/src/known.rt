//! `Known`, what is known of a source.

use sys_plan::NodePlan;
use xs_instructions::Symbols;

/// The nodes of the system, the number of the source's own node, the number that the line before its first has in the whole text, the names that it
/// names, the number of its last line with an instruction, 0 where there is none, and whether it has a `setd`.
#[derive(Drop)]
pub(crate) struct Known<'a> {
    pub(crate) nodes: &'a [NodePlan],
    pub(crate) node: u8,
    pub(crate) opening: u32,
    pub(crate) names: Symbols,
    pub(crate) last: u32,
    pub(crate) sends: bool,
}
