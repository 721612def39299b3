//! `Sources`, what the lines of all nodes are written by.
ghost use Rattle.std.specs.Prelude.{◌≡◌, ◌+◌, ◌<◌, Some, [], length, slice_index_or, IfOk};
ghost use Rattle.issue_text.specs.NodeSlots.{AreSources, ArePrinters, IsNodeSlot, numbers_of};

use crate::node_slot::NodeSlot;
use std::alloc::{AllocError, Global};
use sys_plan::Plan;
use told_run::ToldRun;
use xs_printer::Printer;

/// A plan, what writes the instructions of each of its nodes, and the lines that these come from, both by the node's position.
#[derive(Clone, Copy)]
pub(crate) struct Sources<'a> {
    pub(crate) plan: &'a Plan,
    pub(crate) printers: &'a [Printer<'a>],
    pub(crate) lines: &'a [Vec<u32>],
}

impl<'a> Sources<'a> {
    /// The node at a position in a slot, which a run has told.
    pub(crate) fn node_slot(&'a self, run: &'a ToldRun, slot: u32, n: u8) -> NodeSlot<'a>
        requires sources { AreSources run.now.plan self.now }
        requires told { run.now.slot ≡ Some slot }
        requires passed { run.now.now ≡ slot + 1 }
        requires node { n < length run.now.plan.nodes }
        ensures { IsNodeSlot run.now.plan (numbers_of self.now) slot n result }
    {
        let nodes = self.plan.nodes();
        NodeSlot {
            node: &nodes[n as usize],
            printer: &self.printers[n as usize],
            lines: self.lines_of(n),
            slot,
            before: &run.before(n).threads,
            after: run.core(n).threads(),
        }
    }

    // The lines of the instructions of the node at a position.
    fn lines_of(&self, n: u8) -> &'a [u32]
        ensures { result.now ≡ slice_index_or (numbers_of self.now) n [] }
    {
        match self.lines.get(n as usize) {
            None => &[],
            Some(numbers) => numbers.as_slice(),
        }
    }
}

/// What writes the instructions of each node of a plan. The error is want of memory.
pub(crate) fn printers_of(alloc: Global, plan: &Plan) -> Result<Vec<Printer<'_>>, AllocError>
    ensures { IfOk result (λ printers. ArePrinters plan.now printers.items) }
{
    let mut printers = Vec::new(alloc);
    for node in plan.nodes() {
        printers.push(Printer::new(alloc, &node.image)?)?;
    }
    Ok(printers)
}
