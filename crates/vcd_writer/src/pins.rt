//! `pins_of`, the pin script that a wave text gives a node.
ghost use Rattle.std.specs.Prelude.{◌<◌, ◌^◌, length};
ghost use Rattle.wave_model.specs.Reads.{pins_of};
ghost use Rattle.vcd_writer.specs.Answers.{GivesPins};

use crate::reader::read_wave;
use crate::wave_error::{WaveError, fault};
use std::alloc::Global;
use wave_model::WaveKind;
use xs_base::Text;

/// The pin script that a wave text of fewer than 2^32 bytes gives the node with a number, 0 to 99: a line for each of its change lines. A
/// fault comes exactly where the text is no wave text, at the first line with which none goes on, or at the line after the last where it ends
/// early, and at line 0 where the wave has no such node; want of memory may come in place of any answer. See docs/WAVES.md.
pub fn pins_of(alloc: Global, text: &[u8], node: u8) -> Result<Text, WaveError>
    requires { length text.now < 2 ^ 32 }
    ensures exact { GivesPins (pins_of text.now node) result }
{
    let wave = read_wave(alloc, text)?;
    if !wave.has_node(node) {
        return Err(fault(0, WaveKind::NoSuchNode));
    }
    wave.script_text(alloc, node)
}
