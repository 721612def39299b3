//! `KeptScript`, the lines of a pin script and what is kept of them by node and pin.
ghost use Rattle.std.specs.Prelude.{◌≡◌};
ghost use Rattle.xs_model.specs.Outside.{LevelsFit};
ghost use Rattle.pin_scripts.specs.Script.{IsNextChange, IsScript, IsSteadyUntil, view_at};
ghost use Rattle.pin_scripts.specs.Facts.{IsIndex};

use crate::PinLine;
use crate::node_changes::{NodeChanges, place_of};
use std::marker::Model;
use xs_model::PinView;

/// The lines of a pin script. Contracts see their list.
#[derive(Drop)]
pub(crate) struct KeptScript {
    lines: Vec<PinLine>,
    // The same by node and pin.
    nodes: Vec<NodeChanges>,
}

impl Model for KeptScript {
    ghost use Rattle.std.specs.Prelude.{List};
    ghost use Rattle.pin_scripts.specs.declared.line.PinLine.{PinLine};
    ghost use Rattle.pin_scripts.specs.Script.{IsScript};
    ghost use Rattle.pin_scripts.specs.Facts.{IsIndex};

    ghost Value = { List PinLine };

    ghost view = { λ s. s.lines.items };

    ghost invariant = { λ s. IsScript s.lines.items × IsIndex s.lines.items s.nodes.items };
}

impl KeptScript {
    /// The script of these lines, which are kept by node and pin too.
    pub(crate) fn of(lines: Vec<PinLine>, nodes: Vec<NodeChanges>) -> KeptScript
        requires script { IsScript lines.items }
        requires index { IsIndex lines.items nodes.items }
        ensures { result ≡ lines.items }
    {
        KeptScript { lines, nodes }
    }

    /// The lines in the order of the text.
    pub(crate) fn lines(&self) -> &[PinLine]
        ensures value { result.now ≡ self.now }
        ensures script { IsScript self.now }
    {
        self.lines.as_slice()
    }

    /// What the pins of the node with this number show in a slot.
    pub(crate) fn view(&self, node: u8, slot: u32, out: &mut PinView)
        ensures value { out.new ≡ view_at self.now node slot }
        ensures levels { LevelsFit out.new.level }
    {
        let place = place_of(&self.nodes, u32::from(node));
        if place < self.nodes.len() {
            self.nodes[place].show(slot, out);
        } else {
            out.level = [0; 29];
        }
    }

    /// The least slot after a slot in which a line of the node with this number stands.
    pub(crate) fn next_change(&self, node: u8, slot: u32) -> Option<u32>
        ensures next { IsNextChange self.now node slot result }
        ensures steady { IsSteadyUntil self.now node slot result }
    {
        let place = place_of(&self.nodes, u32::from(node));
        if place < self.nodes.len() {
            self.nodes[place].next_after(slot)
        } else {
            None
        }
    }
}
