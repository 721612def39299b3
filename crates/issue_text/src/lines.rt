//! `Lines`, the lines of a run: the first of them, and how many there were.
ghost use Rattle.std.specs.Prelude.{◌≡◌, ◌+◌, ◌-◌, ◌^◌, ◌<◌, ◌≤◌, List, ℕ, [], ◌∷◌, ◌++◌, IfSome, IfOk, OnOk};
ghost use Rattle.xs_base.specs.declared.numbers.TheConstants.{THREADS};
ghost use Rattle.issue_model.specs.Issues.{lines_text};
ghost use Rattle.issue_text.specs.Kept.{IsOf, Adds};
ghost use Rattle.issue_text.specs.NodeSlots.{line_in, lines_in};

use crate::line::append_line;
use crate::node_slot::NodeSlot;
use core_step::Told;
use issue_model::{Ending, MOST_LINES};
use look_words::{append_end, append_more};
use std::alloc::{AllocError, Global};
use xs_base::Text;

/// The lines of a run: the text of the first ones, and how many there were.
#[derive(Drop)]
pub(crate) struct Lines {
    pub(crate) text: Text,
    pub(crate) count: u64,
}

impl Lines {
    /// No lines yet. It takes no memory.
    pub(crate) fn new(alloc: Global) -> Lines
        ensures none { IsOf result [] }
        ensures count { result.count ≡ 0 }
    {
        Lines {
            text: Text::new(alloc),
            count: 0,
        }
    }

    /// Adds the line of a node's issue in a slot, of which this was told, where there was one. The error is want of memory.
    pub(crate) fn add_issue(&mut self, at: &NodeSlot, told: &Told) -> Result<(), AllocError>
        requires printer { at.now.printer.now ≡ at.now.node.now.image }
        requires thread { IfSome told.now.issue (λ next. next.thread < THREADS) }
        requires count { self.old.count < 2 ^ 64 - 1 }
        ensures lines { OnOk result (Adds self.old self.new (lines_in at.now told.now)) }
        ensures count { OnOk result (self.new.count ≤ self.old.count + 1) }
    {
        let Some(next) = told.issue else {
            return Ok(());
        };
        let ending = at.ending(next, told.traps);
        self.add_line(at, next.thread, ending)
    }

    // Adds the line of an issue by thread k, 0 to 7, which ended so.
    fn add_line(&mut self, at: &NodeSlot, k: u8, ending: Ending) -> Result<(), AllocError>
        requires printer { at.now.printer.now ≡ at.now.node.now.image }
        requires thread { k < THREADS }
        requires count { self.old.count < 2 ^ 64 - 1 }
        ensures lines { OnOk result (Adds self.old self.new (line_in at.now k ending ∷ [])) }
        ensures count { OnOk result (self.new.count ≤ self.old.count + 1) }
    {
        self.count += 1;
        if self.count > MOST_LINES {
            return Ok(());
        }
        append_line(&mut self.text, at, k, ending)?;
        Ok(())
    }

    /// The whole text of a run of so many slots. The error is want of memory.
    pub(crate) fn into_text(self, slots: u32) -> Result<Text, AllocError>
        ensures { IfOk result (λ text. (all : List (List ℕ)) → IsOf self all → text ≡ lines_text slots all) }
    {
        let mut out = self.text;
        append_more(&mut out, self.count.saturating_sub(MOST_LINES))?;
        append_end(&mut out, slots)?;
        Ok(out)
    }
}
