//! `NodeChanges`, the changes of the pins of one node.
ghost use Rattle.std.specs.Prelude.{◌≡◌, ◌≤◌, ◌<◌, ◌==◌, List, map, length, slice_index_or, [], IfOk, OnOk};
ghost use Rattle.xs_base.specs.Numbers.{Slot};
ghost use Rattle.pin_scripts.specs.declared.line.Change.{Change};
ghost use Rattle.pin_scripts.specs.Script.{shown, IsNextWhere};
ghost use Rattle.pin_scripts.specs.Facts.{IsPast, IsCountUntil, has_slot, node_without_lines, place_of, same_slot, slot_of_change, with_change};

use crate::Change;
use crate::changes::PinChanges;
use std::alloc::{AllocError, Global};
use std::marker::Model;
use xs_base::numbers::PORTS;
use xs_model::PinView;

/// The changes of each pin of the node with this number, and the slots of all its lines. Contracts see it as a
/// `NodeChangesRec` of `Rattle.pin_scripts.specs.Facts`.
#[derive(Drop)]
pub(crate) struct NodeChanges {
    pub(crate) number: u8,
    pins: Vec<PinChanges>,
    slots: Vec<u32>,
}

impl Model for NodeChanges {
    ghost use Rattle.std.specs.Prelude.{◌≡◌, length};
    ghost use Rattle.pin_scripts.specs.Facts.{NodeChangesRec, same_slot};
    ghost use Rattle.pin_scripts.specs.Script.{NeverFall};

    ghost Value = { NodeChangesRec };

    ghost view = { λ n. record { number = n.number; pins = n.pins.items; slots = n.slots.items } };

    ghost invariant = { λ n. (length n.pins.items ≡ 29) × NeverFall same_slot 0 n.slots.items };
}

impl NodeChanges {
    /// The node with a number, without lines. The error is want of memory.
    pub(crate) fn new(alloc: Global, number: u8) -> Result<NodeChanges, AllocError>
        ensures { IfOk result (λ node. node ≡ node_without_lines number) }
    {
        Ok(NodeChanges {
            number,
            pins: pins_without_changes(alloc)?,
            slots: Vec::new(alloc),
        })
    }

    // Whether the node has a number.
    fn is_numbered(&self, number: u32) -> bool
        ensures { result ≡ (self.now.number == number) }
    {
        u32::from(self.number) == number
    }

    /// The changes of the pin of a port, 0 to 28.
    pub(crate) fn pin(&self, port: u8) -> &PinChanges
        requires { port < 29 }
        ensures { result.now ≡ slice_index_or self.now.pins port [] }
    {
        &self.pins[port as usize]
    }

    /// Adds a change of the pin of a port, 0 to 28, in the slot of the last line or after it. The error is want of memory.
    pub(crate) fn add(&mut self, port: u8, change: Change) -> Result<(), AllocError>
        requires port { port < 29 }
        requires pin { IsPast slot_of_change change.slot (slice_index_or self.old.pins port []) }
        requires slots { IsPast same_slot change.slot self.old.slots }
        ensures added { OnOk result (self.new ≡ with_change self.old port change) }
        ensures pins { length self.old.pins ≡ 29 }
    {
        self.slots.push(change.slot)?;
        self.pins[port as usize].add(change)
    }

    /// What the pins of the node show in a slot.
    pub(crate) fn show(&self, slot: u32, out: &mut PinView)
        ensures value { out.new.level ≡ map (λ (changes : List Change). shown changes slot) self.now.pins }
        ensures pins { length self.now.pins ≡ 29 }
    {
        for port in 0..usize::from(PORTS) {
            out.level[port] = self.pins[port].shown(slot);
        }
    }

    /// The least slot after a slot in which a line of the node stands, where there is one.
    pub(crate) fn next_after(&self, slot: u32) -> Option<u32>
        ensures { IsNextWhere (has_slot self.now.slots) slot result }
    {
        let until = self.count_until(slot);
        if until < self.slots.len() {
            Some(self.slots[until])
        } else {
            None
        }
    }

    // How many lines stand in the slot or before it.
    fn count_until(&self, slot: u32) -> usize
        ensures within { result ≤ length self.now.slots }
        ensures value { IsCountUntil same_slot slot self.now.slots result }
    {
        self.slots.partition_point(|line| *line <= slot)
    }
}

// Of each pin of a node, no changes.
fn pins_without_changes(alloc: Global) -> Result<Vec<PinChanges>, AllocError>
    ensures { IfOk result (λ pins. pins.items ≡ (node_without_lines 0).pins) }
{
    let mut pins = Vec::new(alloc);
    for _ in 0..PORTS {
        pins.push(PinChanges::new(alloc))?;
    }
    Ok(pins)
}

/// Where a node stands by its number, the count of the nodes where it is none of them.
pub(crate) fn place_of(nodes: &[NodeChanges], number: u32) -> usize
    ensures value { result ≡ place_of nodes.now number }
    ensures within { result ≤ length nodes.now }
{
    let mut place = 0;
    while place < nodes.len() && !nodes[place].is_numbered(number) {
        place += 1;
    }
    place
}
