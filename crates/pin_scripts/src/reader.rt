//! Reading the text of a pin script.
ghost use Rattle.std.specs.Prelude.{ℕ, ◌≡◌, ◌≤◌, ◌<◌, ◌^◌, ◌++◌, [], true, None, List, length, map, IfOk, OnOk};
ghost use Rattle.xs_text.specs.Lines.{lines_of};
ghost use Rattle.pin_scripts.specs.declared.line.PinLine.{PinLine};
ghost use Rattle.pin_scripts.specs.declared.line.PinSays.TheVariants.{Form};
ghost use Rattle.pin_scripts.specs.declared.pin_error.PinError.TheVariants as errors;
ghost use Rattle.pin_scripts.specs.declared.pin_error.PinKind.{PinKind};
ghost use Rattle.pin_scripts.specs.Script.{IsOfNodes, IsScript};
ghost use Rattle.pin_scripts.specs.Pins.{Script as ScriptOf, Fault, fault_of, fault_of_said, falls, given_by, given_by_said, gives_pin_twice, has_wide_value, names_no_node, pins_of, slot_after};
ghost use Rattle.pin_scripts.specs.Facts.{GivesScript, HasPort, IsGiven, ReadsPins, Refuses, TellsFault, node_without_lines, numbers_of};

use crate::form::says;
use crate::node_changes::{NodeChanges, place_of};
use crate::{Change, PinError, PinForm, PinKind, PinLine, PinSays, Script};
use std::alloc::{AllocError, Global};
use xs_base::port_width;
use xs_text::{Lines, all_allowed};

/// The pin script that a text of fewer than 2^32 bytes stands for, in a system of the nodes with these numbers. A fault comes
/// exactly where it stands for none, with the first faulty line and kind; want of memory may come in place of either. See
/// docs/PINS.md.
#[tactic(auto, unfolding(crate::specs::Pins::pins_of, crate::specs::Pins::pins_from))]
pub fn read_pins(alloc: Global, text: &[u8], nodes: &[u8]) -> Result<Script, PinError>
    requires { length text.now < 2 ^ 32 }

    ensures exact { ReadsPins (pins_of nodes.now (lines_of text.now)) result }
    ensures script { IfOk result IsScript }
    ensures nodes { IfOk result (λ script. IsOfNodes nodes.now script) }
    ensures taken { (script : List PinLine) → pins_of nodes.now (lines_of text.now) ≡ ScriptOf script → GivesScript script result }
    ensures refused { (line : ℕ) (kind : PinKind) → pins_of nodes.now (lines_of text.now) ≡ Fault line kind → Refuses line kind result }
{
    let mut given = Given::new(alloc, nodes)?;
    let mut lines = Lines::new(text);
    while let Some(line) = lines.next_line() {
        match given.read_line(line.number, &text[line.from..line.to]) {
            Ok(()) => {}
            Err(error) => return Err(error),
        }
    }
    Ok(Script::of(alloc, given.lines, given.nodes)?)
}

// What the lines so far have given.
#[derive(Drop)]
struct Given {
    lines: Vec<PinLine>,
    // The same by node and pin. All nodes of the system stand here.
    nodes: Vec<NodeChanges>,
}

impl Given {
    // No lines yet. The error is want of memory.
    fn new(alloc: Global, numbers: &[u8]) -> Result<Given, AllocError>
        ensures lines { IfOk result (λ given. given.lines.items ≡ []) }
        ensures nodes { IfOk result (λ given. given.nodes.items ≡ map node_without_lines numbers.now) }
    {
        let mut nodes = Vec::new(alloc);
        for number in numbers {
            nodes.push(NodeChanges::new(alloc, *number)?)?;
        }
        Ok(Given {
            lines: Vec::new(alloc),
            nodes,
        })
    }

    // Adds what a line of the text with a number says. The error is its fault, or want of memory.
    fn read_line(&mut self, number: u32, line: &[u8]) -> Result<(), PinError>
        requires given { IsGiven self.old.lines.items self.old.nodes.items }
        ensures fault { TellsFault (fault_of (numbers_of self.old.nodes.items) self.old.lines.items line.now) number result }
        ensures lines { OnOk result (self.new.lines.items ≡ self.old.lines.items ++ given_by line.now) }
        ensures given { OnOk result (IsGiven self.new.lines.items self.new.nodes.items) }
        ensures numbers { OnOk result (numbers_of self.new.nodes.items ≡ numbers_of self.old.nodes.items) }
    {
        if !all_allowed(line) {
            return Err(fault(number, PinKind::BadLine));
        }
        match says(line) {
            PinSays::Blank => Ok(()),
            PinSays::NoForm => Err(fault(number, PinKind::BadLine)),
            PinSays::Form(form) => self.read_form(number, &form),
        }
    }

    // The same of a line by its form.
    fn read_form(&mut self, number: u32, form: &PinForm) -> Result<(), PinError>
        requires given { IsGiven self.old.lines.items self.old.nodes.items }
        requires port { HasPort form.now }
        ensures fault { TellsFault (fault_of_said (numbers_of self.old.nodes.items) self.old.lines.items true (Form form.now)) number result }
        ensures lines { OnOk result (self.new.lines.items ≡ self.old.lines.items ++ given_by_said (Form form.now)) }
        ensures given { OnOk result (IsGiven self.new.lines.items self.new.nodes.items) }
        ensures numbers { OnOk result (numbers_of self.new.nodes.items ≡ numbers_of self.old.nodes.items) }
    {
        match self.fault_of(form) {
            Some(kind) => Err(fault(number, kind)),
            None => {
                self.take(form)?;
                Ok(())
            }
        }
    }

    // The fault of a line of the form.
    fn fault_of(&self, form: &PinForm) -> Option<PinKind>
        requires given { IsGiven self.now.lines.items self.now.nodes.items }
        requires port { HasPort form.now }
        ensures { result ≡ fault_of_said (numbers_of self.now.nodes.items) self.now.lines.items true (Form form.now) }
    {
        if self.names_no_node(form) {
            Some(PinKind::NoSuchNode)
        } else if form.port.is_none() {
            Some(PinKind::NoSuchPort)
        } else if has_wide_value(form) {
            Some(PinKind::ValueTooWide)
        } else if self.falls(form) {
            Some(PinKind::SlotFalls)
        } else if self.gives_pin_twice(form) {
            Some(PinKind::PinGivenTwice)
        } else {
            None
        }
    }

    fn names_no_node(&self, form: &PinForm) -> bool
        ensures { result ≡ names_no_node (numbers_of self.now.nodes.items) (Form form.now) }
    {
        place_of(&self.nodes, form.node) >= self.nodes.len()
    }

    fn falls(&self, form: &PinForm) -> bool
        ensures { result ≡ falls self.now.lines.items (Form form.now) }
    {
        form.slot < last_slot(&self.lines)
    }

    // Whether a line before it, none of them in a later slot, gives the pin in the same slot.
    fn gives_pin_twice(&self, form: &PinForm) -> bool
        requires given { IsGiven self.now.lines.items self.now.nodes.items }
        requires port { HasPort form.now }
        requires later { slot_after 0 self.now.lines.items ≤ form.now.slot }
        ensures { result ≡ gives_pin_twice self.now.lines.items (Form form.now) }
    {
        let Some(port) = form.port else {
            return false;
        };
        let place = place_of(&self.nodes, form.node);
        if place < self.nodes.len() {
            let node = &self.nodes[place];
            node.pin(port).changes_in(form.slot)
        } else {
            false
        }
    }

    // Adds a line of the form that has no fault. The error is want of memory.
    fn take(&mut self, form: &PinForm) -> Result<(), AllocError>
        requires given { IsGiven self.old.lines.items self.old.nodes.items }
        requires port { HasPort form.now }
        requires sound { fault_of_said (numbers_of self.old.nodes.items) self.old.lines.items true (Form form.now) ≡ None }
        ensures lines { OnOk result (self.new.lines.items ≡ self.old.lines.items ++ given_by_said (Form form.now)) }
        ensures given { OnOk result (IsGiven self.new.lines.items self.new.nodes.items) }
        ensures numbers { OnOk result (numbers_of self.new.nodes.items ≡ numbers_of self.old.nodes.items) }
    {
        let Some(port) = form.port else {
            return Ok(());
        };
        let place = place_of(&self.nodes, form.node);
        let node = &mut self.nodes[place];
        let number = node.number;
        node.add(
            port,
            Change {
                slot: form.slot,
                value: form.value,
            },
        )?;
        self.lines.push(PinLine {
            slot: form.slot,
            node: number,
            port,
            value: form.value,
        })?;
        Ok(())
    }
}

fn fault(line: u32, kind: PinKind) -> PinError
    ensures { result ≡ errors.Fault line kind }
{
    PinError::Fault { line, kind }
}

// The slot of the last line, 0 where there is none.
fn last_slot(lines: &[PinLine]) -> u32
    ensures { result ≡ slot_after 0 lines.now }
{
    if lines.is_empty() {
        0
    } else {
        lines[lines.len() - 1].slot
    }
}

// Whether the value has more bits than the port has pins.
fn has_wide_value(form: &PinForm) -> bool
    requires { HasPort form.now }
    ensures { result ≡ has_wide_value (Form form.now) }
{
    match form.port {
        None => false,
        Some(port) => u64::from(form.value) >= 1 << port_width(port),
    }
}
