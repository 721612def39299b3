//! The line of an issue.
ghost use Rattle.std.specs.Prelude.{◌≡◌, ◌<◌, ◌++◌, IfSome, OnOk};
ghost use Rattle.xs_base.specs.declared.numbers.TheConstants.{THREADS};
ghost use Rattle.xs_instructions.specs.Instr.{InRange};
ghost use Rattle.issue_model.specs.Issues.{told_text};
ghost use Rattle.issue_text.specs.NodeSlots.{line_in};

use crate::endings::append_ending;
use crate::node_slot::{NodeSlot, thread_in};
use crate::registers::append_threads;
use crate::stores::append_stored;
use issue_model::Ending;
use std::alloc::AllocError;
use xs_base::Text;
use xs_instructions::Instr;

/// The line of an issue by thread k, 0 to 7, of a node in a slot. The error is want of memory.
pub(crate) fn append_line(
    out: &mut Text,
    at: &NodeSlot,
    k: u8,
    ending: Ending,
) -> Result<(), AllocError>
    requires printer { at.now.printer.now ≡ at.now.node.now.image }
    requires thread { k < THREADS }
    ensures { OnOk result (out.new ≡ out.old ++ line_in at.now k ending) }
{
    at.append_start(out, k)?;
    let done = at.done(k, ending);
    append_told(out, at, k, ending, done)?;
    Ok(())
}

// What is told behind the instruction, where this was done.
fn append_told(
    out: &mut Text,
    at: &NodeSlot,
    k: u8,
    ending: Ending,
    done: Option<Instr>,
) -> Result<(), AllocError>
    requires thread { k < THREADS }
    requires range { IfSome done InRange }
    ensures { OnOk result (out.new ≡ out.old ++ told_text at.now.node.now.id k at.now.before.now at.now.after.now ending done) }
{
    let th = thread_in(at.before, k);
    append_ending(out, at.node.id, th, thread_in(at.after, k), ending)?;
    append_threads(out, k, done, at.before, at.after)?;
    append_stored(out, th, done)?;
    out.append(b"\n")
}
