//! `NodeSlot`, a node in a slot of a run.
ghost use Rattle.std.specs.Prelude.{◌≡◌, ◌<◌, ◌++◌, IfSome, OnOk};
ghost use Rattle.xs_base.specs.declared.numbers.TheConstants.{THREADS};
ghost use Rattle.xs_instructions.specs.Instr.{InRange};
ghost use Rattle.xs_instructions.specs.Code.{code_at};
ghost use Rattle.issue_model.specs.Endings.{is_done, ending_of};
ghost use Rattle.issue_model.specs.Issues.{thread_in, done_by, start_text};

use crate::endings::{ending_of, is_done};
use core_step::NextIssue;
use decimal_text::append_decimal;
use issue_model::Ending;
use look_words::{append_place, append_thread_name};
use std::alloc::AllocError;
use sys_plan::NodePlan;
use xs_base::Text;
use xs_instructions::Instr;
use xs_model::Thread;
use xs_printer::Printer;

/// A node in a slot of a run: what its lines are written by, and its threads.
#[derive(Clone, Copy)]
pub(crate) struct NodeSlot<'a> {
    pub(crate) node: &'a NodePlan,
    /// What writes the instructions of the node.
    pub(crate) printer: &'a Printer<'a>,
    /// The line of the source that each of them comes from.
    pub(crate) lines: &'a [u32],
    pub(crate) slot: u32,
    /// The threads before the slot, by number.
    pub(crate) before: &'a [Thread; 8],
    /// The threads after it.
    pub(crate) after: &'a [Thread; 8],
}

impl NodeSlot<'_> {
    /// How an issue ended, where this is who issued, and what that took.
    pub(crate) fn ending(&self, next: NextIssue, traps: bool) -> Ending
        requires { next.thread < THREADS }
        ensures { result ≡ ending_of next.takes traps (thread_in self.now.after.now next.thread).run }
    {
        ending_of(next.takes, traps, thread_in(self.after, next.thread).run)
    }

    /// The instruction that thread k, 0 to 7, issued, where it was done.
    pub(crate) fn done(&self, k: u8, ending: Ending) -> Option<Instr>
        requires { k < THREADS }
        ensures value { result ≡ done_by (is_done ending) (code_at self.now.node.now.image.code (thread_in self.now.before.now k).pc) }
        ensures range { IfSome result InRange }
    {
        if is_done(ending) {
            self.node.image.at(thread_in(self.before, k).pc)
        } else {
            None
        }
    }

    /// `SLOT nN.tT at PC line L LABEL+D: INSTRUCTION`, of thread k, 0 to 7. The error is want of memory.
    pub(crate) fn append_start(&self, out: &mut Text, k: u8) -> Result<(), AllocError>
        requires printer { self.now.printer.now ≡ self.now.node.now.image }
        requires thread { k < THREADS }
        ensures { OnOk result (out.new ≡ out.old ++ start_text self.now.node.now self.now.lines.now self.now.slot k (thread_in self.now.before.now k).pc) }
    {
        append_decimal(out, u64::from(self.slot))?;
        out.append(b" n")?;
        append_decimal(out, u64::from(self.node.number))?;
        out.append(b".")?;
        append_thread_name(out, k)?;
        append_place(
            out,
            &self.node.image,
            self.printer,
            self.lines,
            thread_in(self.before, k).pc,
        )
    }
}

/// The thread with a number.
pub(crate) fn thread_in(threads: &[Thread; 8], k: u8) -> &Thread
    requires { k < THREADS }
    ensures { result.now ≡ thread_in threads.now k }
{
    &threads[k as usize]
}
