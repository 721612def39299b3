//! `make_system`, a whole load.
ghost use Rattle.std.specs.Prelude.{◌≡◌, IfOk};
ghost use Rattle.load_model.specs.Load.{load_text};

use crate::by_node::{Bits, Links, Nodes, Sections, append_by_node};
use crate::ring::node_count;
use std::alloc::{AllocError, Global};
use xs_base::Text;

/// The load of a number: the text of a system of 2 to 16 nodes in a ring, in which each sends 200 words, each with END, to the next one.
/// The error is want of memory. See docs/LOADS.md.
pub fn make_system(alloc: Global, number: u32) -> Result<Text, AllocError>
    ensures text { IfOk result (λ text. text ≡ load_text number) }
{
    let nodes = node_count(number);
    let mut out = Text::new(alloc);
    out.append(b"xs1 1\n")?;
    append_by_node::<Nodes>(&mut out, number, nodes)?;
    append_by_node::<Links>(&mut out, number, nodes)?;
    append_by_node::<Bits>(&mut out, number, nodes)?;
    append_by_node::<Sections>(&mut out, number, nodes)?;
    Ok(out)
}
