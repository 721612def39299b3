//! Laws of states and of the form of a node's block.
ghost use Rattle.std.specs.Prelude.{◌≡◌, ◌<◌, ◌≤◌, ◌^◌, ℕ, List, length, map, nat_lt};
ghost use Rattle.xs_base.specs.Numbers.{Slot};
ghost use Rattle.xs_model.specs.FirstEvents.{kept_at_most};
ghost use Rattle.core_step.specs.States.{IsNodeState, IsStateBefore};
ghost use Rattle.core_step.specs.declared.node_state.NodeState.{NodeState};
ghost use Rattle.snap_parts.specs.declared.node.SnapNode.{SnapNode};
ghost use Rattle.node_forms.specs.Nodes.{node_state, snap_node};
ghost use Rattle.state_bridge.specs.Fits.{NumbersFit};

/// What may be so of a node before a slot has the form of a node whose link ends have these gaps, 0 where there is none. It does nothing. See
/// docs/SNAPSHOTS.md.
pub fn states_have_the_form()
    ensures fits { (gaps : List ℕ) (slot : Slot) (state : NodeState) → length gaps ≡ 8 → slot < 2 ^ 32 →
        IsNodeState gaps state → IsStateBefore slot state → NumbersFit state → (node_state (map (λ gap. nat_lt 0 gap) gaps) slot).Holds state }
{}

/// So has what a snapshot keeps of such a node, with how many of its events were kept and how many more there were. It does nothing. See
/// docs/SNAPSHOTS.md.
pub fn nodes_have_the_form()
    ensures fits { (gaps : List ℕ) (slot : Slot) (node : SnapNode) → length gaps ≡ 8 → slot < 2 ^ 32 → node.kept ≤ kept_at_most → node.more < 2 ^ 63 →
        IsNodeState gaps node.state → IsStateBefore slot node.state → NumbersFit node.state → (snap_node (map (λ gap. nat_lt 0 gap) gaps) slot).Holds node }
{}
