//! What a load has node by node.
ghost use Rattle.std.specs.Prelude.{◌≡◌, ◌≤◌, ◌++◌, OnOk};
ghost use Rattle.std.specs.List.{flat_map, range_with_len};

use crate::lines;
use std::alloc::AllocError;
use xs_base::Text;

/// What is written for each node of a load: each kind of lines by the one loop of `append_by_node`.
pub(crate) trait NodeLines {
    ghost use Rattle.std.specs.Prelude.{◌≡◌, ◌<◌, ◌++◌, ℕ, List, OnOk};

    // The text for a node of the load of a number.
    ghost text: { ℕ → ℕ → List ℕ };

    /// Writes it. The error is want of memory.
    fn append(out: &mut Text, number: u32, i: u32) -> Result<(), AllocError>
        requires node { i < 16 }
        ensures { OnOk result (out.new ≡ out.old ++ text number i) };
}

/// The line of the node.
pub(crate) struct Nodes;

impl NodeLines for Nodes {
    ghost use Rattle.std.specs.Prelude.{◌++◌, [], ◌∷◌};
    ghost use Rattle.load_model.specs.Load.{node_text};

    ghost text = { λ _ i. node_text i ++ (10 ∷ []) };

    fn append(out: &mut Text, _number: u32, i: u32) -> Result<(), AllocError> {
        lines::append_node(out, i)
    }
}

/// The line of the link to the node after it.
pub(crate) struct Links;

impl NodeLines for Links {
    ghost use Rattle.std.specs.Prelude.{◌++◌, [], ◌∷◌};
    ghost use Rattle.load_model.specs.Load.{link_text};

    ghost text = { λ number i. link_text number i ++ (10 ∷ []) };

    fn append(out: &mut Text, number: u32, i: u32) -> Result<(), AllocError> {
        lines::append_link(out, number, i)
    }
}

/// The line of the bit by which the node after it is found.
pub(crate) struct Bits;

impl NodeLines for Bits {
    ghost use Rattle.std.specs.Prelude.{◌++◌, [], ◌∷◌};
    ghost use Rattle.load_model.specs.Load.{bit_text};

    ghost text = { λ number i. bit_text number i ++ (10 ∷ []) };

    fn append(out: &mut Text, number: u32, i: u32) -> Result<(), AllocError> {
        lines::append_bit(out, number, i)
    }
}

/// The section of the node's source.
pub(crate) struct Sections;

impl NodeLines for Sections {
    ghost use Rattle.load_model.specs.Load.{node_section, text_of_lines};

    ghost text = { λ number i. text_of_lines (node_section number i) };

    fn append(out: &mut Text, number: u32, i: u32) -> Result<(), AllocError> {
        lines::append_section(out, number, i)
    }
}

/// Writes this for each node of the load of a number that has so many, in the order of their numbers. The error is want of memory.
pub(crate) fn append_by_node<P: NodeLines>(
    out: &mut Text,
    number: u32,
    nodes: u32,
) -> Result<(), AllocError>
    requires few { nodes ≤ 16 }
    ensures { OnOk result (out.new ≡ out.old ++ flat_map (P.text number) (range_with_len 0 nodes)) }
{
    for i in 0..nodes {
        P::append(out, number, i)?;
    }
    Ok(())
}
