//! That the nodes of a plan that a program holds are runnable, by their types. What stands here does nothing.
ghost use Rattle.std.specs.Prelude.{ℕ, ◌<◌, ◌^◌};
ghost use Rattle.std.specs.List.{AllByRecursion};
ghost use Rattle.range_laws.specs.Ranges.{IsRunnable, AreRunnable};

use sys_plan::NodePlan;

/// Each of some nodes of a plan has an image, and its numbers are of their types. It does nothing: who has a plan knows by it that the laws of
/// runs hold of it.
pub fn nodes_are_runnable(nodes: &[NodePlan])
    ensures all { AreRunnable nodes.now }
{
    for node in nodes {
        node_is_runnable(node);
    }
}

fn node_is_runnable(node: &NodePlan)
    ensures { IsRunnable node.now }
{
    node.image.code();
    are_bytes(node.image.bytes());
    has_16_bits(node.id);
}

fn are_bytes(bytes: &[u8])
    ensures { AllByRecursion (λ (b : ℕ). b < 256) bytes.now }
{
    for b in bytes {
        is_byte(*b);
    }
}

fn is_byte(b: u8)
    ensures { b < 256 }
{}

fn has_16_bits(id: u16)
    ensures { id < 2 ^ 16 }
{}
