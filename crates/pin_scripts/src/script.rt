//! `Script`, a pin script that was read.
ghost use Rattle.std.specs.Prelude.{◌≡◌, [], IfOk};
ghost use Rattle.xs_model.specs.Outside.{LevelsFit};
ghost use Rattle.pin_scripts.specs.Script.{IsNextChange, IsScript, IsSteadyUntil, view_at};
ghost use Rattle.pin_scripts.specs.Facts.{IsIndex};

use crate::PinLine;
use crate::kept_script::KeptScript;
use crate::node_changes::NodeChanges;
use std::alloc::{AllocError, Global};
use std::marker::Model;
use std::sync::Arc;
use xs_model::PinView;

/// What drives the pins of a system's nodes from outside. Contracts see the list of its lines in the order of the text; the
/// record `IsScript` of `Rattle.pin_scripts.specs.Script` says what every script keeps. A clone shares the lines and takes no
/// memory. See docs/PINS.md.
#[derive(Drop)]
pub struct Script {
    // Nothing where there are no lines.
    kept: Option<Arc<KeptScript, Global>>,
}

impl Model for Script {
    ghost use Rattle.std.specs.Prelude.{List};
    ghost use Rattle.pin_scripts.specs.declared.line.PinLine.{PinLine};
    ghost use Rattle.pin_scripts.specs.Shared.{shared_lines};

    ghost Value = { List PinLine };

    ghost view = { λ s. shared_lines s.kept };
}

impl Script {
    /// The script without lines. It takes no memory.
    pub fn empty() -> Script
        ensures { result ≡ [] }
    {
        Script { kept: None }
    }

    // The script of these lines, which are kept by node and pin too. The error is want of memory.
    pub(crate) fn of(
        alloc: Global,
        lines: Vec<PinLine>,
        nodes: Vec<NodeChanges>,
    ) -> Result<Script, AllocError>
        requires script { IsScript lines.items }
        requires index { IsIndex lines.items nodes.items }
        ensures { IfOk result (λ script. script ≡ lines.items) }
    {
        if lines.is_empty() {
            return Ok(Script::empty());
        }
        let kept = Arc::new(alloc, KeptScript::of(lines, nodes))?;
        Ok(Script { kept: Some(kept) })
    }

    /// The lines in the order of the text.
    pub fn lines(&self) -> &[PinLine]
        ensures value { result.now ≡ self.now }
        ensures script { IsScript self.now }
    {
        match &self.kept {
            Some(kept) => kept.lines(),
            None => &[],
        }
    }

    /// What the pins of the node with this number show in a slot, where its ports do not drive them: each the value of its
    /// last line in that slot or before it, else 0. It takes no memory. See docs/PINS.md.
    pub fn view(&self, node: u8, slot: u32, out: &mut PinView)
        ensures value { out.new ≡ view_at self.now node slot }
        ensures levels { LevelsFit out.new.level }
    {
        match &self.kept {
            Some(kept) => kept.view(node, slot, out),
            None => out.level = [0; 29],
        }
    }

    /// The least slot after a slot in which a line of the node with this number stands: `None` exactly where there is none.
    /// Until then the pins of the node show what they show in the given slot.
    pub fn next_change(&self, node: u8, slot: u32) -> Option<u32>
        ensures next { IsNextChange self.now node slot result }
        ensures steady { IsSteadyUntil self.now node slot result }
    {
        match &self.kept {
            Some(kept) => kept.next_change(node, slot),
            None => None,
        }
    }
}

/// A clone is one more owner of the same lines. It takes no memory; the error is that there are 2^63 - 1 owners already.
impl Clone for Script {
    ghost is_clone = { λ script copy. copy ≡ script };

    fn clone(&self) -> Result<Script, AllocError>
        ensures { IfOk result (λ copy. copy ≡ self.now) }
    {
        let kept = match &self.kept {
            Some(kept) => Some(Arc::try_clone(kept)?),
            None => None,
        };
        Ok(Script { kept })
    }
}
