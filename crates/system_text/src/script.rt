ghost use Rattle.std.specs.Prelude.{◌≡◌, IfOk, map};
ghost use Rattle.pin_scripts.specs.Script.{IsScript, IsOfNodes};
ghost use Rattle.system_model.specs.System.{script_of};
ghost use Rattle.system_text.specs.Plans.{GivesScript};

use crate::frame::Frame;
use crate::system_error::SystemError;
use pin_scripts::{PinError, Script, read_pins};
use std::alloc::{AllocError, Global};
use system_model::{GivenNode, SectionKind};

// The pin script of a frame, or its refusal.
pub fn script_of(alloc: Global, frame: &Frame) -> Result<Script, SystemError>
    ensures script { GivesScript (script_of frame.now) result }
    ensures lines { IfOk result (λ script. IsScript script) }
    ensures nodes { IfOk result (λ script. IsOfNodes (map (λ node. node.number) frame.now.nodes) script) }
{
    let numbers = node_numbers(alloc, frame.nodes())?;
    match read_pins(alloc, frame.section(SectionKind::Pins), &numbers) {
        Ok(script) => Ok(script),
        Err(PinError::Fault { line, kind }) => Err(SystemError::Pins { line, kind }),
        Err(PinError::Memory) => Err(SystemError::Memory),
    }
}

// The numbers of nodes.
fn node_numbers(alloc: Global, nodes: &[GivenNode]) -> Result<Vec<u8>, AllocError>
    ensures { IfOk result (λ numbers. numbers.items ≡ map (λ node. node.number) nodes.now) }
{
    nodes.iter().map(|node| node.number).collect(alloc)
}
