ghost use Rattle.std.specs.Prelude.{◌≡◌, map, IfOk};
ghost use Rattle.system_model.specs.CodeLines.{IsOfPlan, node_code_lines, code_lines_of_text};
ghost use Rattle.system_model.specs.System.{system_of};

use crate::frame::Frame;
use crate::frame_reader::read_frame;
use crate::system_error::SystemError;
use std::alloc::{AllocError, Global};
use system_model::{GivenNode, SectionKind};
use xs_assembler::lines_of_code;

/// The line of its source that each instruction of each node comes from, of a text that stands for a plan: the nodes by
/// ascending number, as in the plan, and for each of them as many lines as its image has instructions, at most 16 384, in the
/// order of its code. The lines of a source count from 1 after the line that begins it. The error is want of memory. See
/// docs/SYSTEM_TEXT.md.
pub fn read_code_lines(alloc: Global, bytes: &[u8]) -> Result<Vec<Vec<u32>>, AllocError>
    requires plan { IsOfPlan (system_of bytes.now) }
    ensures { IfOk result (λ nodes. map (λ numbers. numbers.items) nodes.items ≡ code_lines_of_text bytes.now) }
{
    match read_frame(alloc, bytes) {
        Ok(frame) => code_lines_of_nodes(alloc, &frame),
        Err(SystemError::Memory) => Err(AllocError),
        Err(_) => Ok(Vec::new(alloc)),
    }
}

// The same of each node of a frame.
fn code_lines_of_nodes(alloc: Global, frame: &Frame) -> Result<Vec<Vec<u32>>, AllocError>
    ensures { IfOk result (λ nodes. map (λ numbers. numbers.items) nodes.items ≡ map (node_code_lines frame.now) frame.now.nodes) }
{
    let given = frame.nodes();
    let mut nodes = Vec::new(alloc);
    for node in given {
        nodes.push(code_lines_of_node(alloc, frame, *node)?)?;
    }
    Ok(nodes)
}

// The same of one node.
fn code_lines_of_node(alloc: Global, frame: &Frame, node: GivenNode) -> Result<Vec<u32>, AllocError>
    ensures { IfOk result (λ numbers. numbers.items ≡ node_code_lines frame.now node) }
{
    lines_of_code(alloc, frame.section(SectionKind::Source(node.number)))
}
