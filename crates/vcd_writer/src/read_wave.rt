//! `ReadWave`, the wave that was read so far, and the pin script that it gives a node.
ghost use Rattle.std.specs.Prelude.{◌≡◌, ◌<◌, ◌≤◌, ◌++◌, ◌∷◌, [], length, OnOk, OnErr, MatchResult};
ghost use Rattle.wave_model.specs.Waves.{ended, script_line, script_text};
ghost use Rattle.wave_model.specs.Reads.{has_node};
ghost use Rattle.vcd_writer.specs.declared.wave_error.WaveError.TheVariants.{Memory};
ghost use Rattle.vcd_writer.specs.ReadWaves.{empty_wave, line_at};

use crate::wave_error::WaveError;
use arrayvec::ArrayVec;
use decimal_text::append_decimal;
use line_text::append_pin;
use std::alloc::{AllocError, Global};
use std::marker::Model;
use wave_model::WaveChange;
use xs_base::Text;

/// A wave. Contracts see the record `WaveRec` of `Rattle.wave_model.specs.Waves`.
#[derive(Drop)]
pub(crate) struct ReadWave {
    nodes: ArrayVec<u8, 16>,
    changes: Vec<WaveChange>,
    last: u32,
}

impl Model for ReadWave {
    ghost use Rattle.wave_model.specs.Waves.{WaveRec};
    ghost use Rattle.vcd_writer.specs.ReadWaves.{AreOfPins};

    ghost Value = { WaveRec };

    ghost view = { λ w. record { nodes = w.nodes.items; changes = w.changes.items; last = w.last } };

    ghost invariant = { λ w. AreOfPins w.nodes.items w.changes.items };
}

impl ReadWave {
    /// A wave of no node.
    pub(crate) fn new(alloc: Global) -> ReadWave
        ensures { result ≡ empty_wave [] }
    {
        ReadWave {
            nodes: ArrayVec::new(),
            changes: Vec::new(alloc),
            last: 0,
        }
    }

    /// The numbers of its nodes, by position.
    pub(crate) fn nodes(&self) -> &[u8]
        ensures value { result.now ≡ self.now.nodes }
        ensures few { length result.now ≤ 16 }
    {
        self.nodes.as_slice()
    }

    /// The slot in which it ends so far.
    pub(crate) fn last(&self) -> u32
        ensures { result ≡ self.now.last }
    {
        self.last
    }

    /// Puts a node after the others of a wave without changes.
    pub(crate) fn push_node(&mut self, number: u8)
        requires few { length self.old.nodes < 16 }
        requires no_changes { self.old.changes ≡ [] }
        ensures { self.new ≡ record self.old { nodes = self.old.nodes ++ number ∷ [] } }
    {
        self.nodes.push(number);
    }

    /// Puts a change of a pin that is there after the others. The error is want of memory, and leaves the wave as it was.
    pub(crate) fn push_change(&mut self, change: WaveChange) -> Result<(), AllocError>
        requires node { change.node < length self.old.nodes }
        requires port { change.port < 29 }
        ensures ok { OnOk result (self.new ≡ record self.old { changes = self.old.changes ++ change ∷ [] }) }
        ensures err { OnErr result (self.new ≡ self.old) }
    {
        self.changes.push(change)?;
        Ok(())
    }

    /// The wave ends in this slot.
    pub(crate) fn end_in(&mut self, slot: u32)
        ensures { self.new ≡ record self.old { last = slot } }
    {
        self.last = slot;
    }

    /// Whether it has a node.
    pub(crate) fn has_node(&self, node: u8) -> bool
        ensures { result ≡ has_node self.now node }
    {
        self.nodes.iter().any(|number| *number == node)
    }

    /// The pin script that it gives the node with a number.
    pub(crate) fn script_text(&self, alloc: Global, node: u8) -> Result<Text, WaveError>
        ensures { MatchResult result (λ text. text ≡ script_text self.now node) (λ e. e ≡ Memory) }
    {
        let mut text = Text::new(alloc);
        for change in &self.changes {
            let number = self.nodes[change.node as usize];
            if number == node {
                append_script_line(&mut text, number, *change)?;
            }
        }
        Ok(text)
    }
}

// The line of a script for a change of a pin of the node with a number.
fn append_script_line(text: &mut Text, number: u8, change: WaveChange) -> Result<(), AllocError>
    requires { change.port < 29 }
    ensures { OnOk result (text.new ≡ text.old ++ ended (script_line (line_at number change))) }
{
    append_decimal(text, u64::from(change.slot))?;
    text.append(b" ")?;
    append_pin(text, number, change.port)?;
    text.append(b" ")?;
    append_decimal(text, u64::from(change.value))?;
    text.append(b"\n")
}
