//! That what a run saves is a snapshot. What stands here does nothing.
ghost use Rattle.std.specs.Prelude.{◌≡◌, ◌<◌, ◌^◌, map};
ghost use Rattle.std.specs.List.{AllByRecursion};
ghost use Rattle.system_model.specs.System as stands;
ghost use Rattle.system_model.specs.System.{system_of};
ghost use Rattle.byte_forms.specs.Forms.{AreBytes};
ghost use Rattle.snap_parts.specs.declared.node.SnapNode.{SnapNode as NodeSeen};
ghost use Rattle.snap_parts.specs.Parts.{seen};
ghost use Rattle.snap_model.specs.Saved.{saved_at};
ghost use Rattle.snap_codec.specs.Snaps.{IsSnap};
ghost use Rattle.state_laws.specs.Runs.{RunInRange};
ghost use Rattle.state_bridge.specs.Fits.{NumbersFit};

use saved_laws::{
    logs_carry_bytes, saved_counts_are_small, saved_links_may_be_kept, saved_nodes_may_be_kept,
    saved_parts_are_those_of_the_run, saved_wires_may_be_kept,
};
use snap_parts::{SnapLog, SnapNode};
use state_bridge::{node_fits, nodes_have_the_form};
use sys_plan::Plan;

/// What a run of a plan, of which this is the text, saves before a slot is a snapshot.
pub(crate) fn saved_is_a_snapshot(
    plan: &Plan,
    text: &[u8],
    slot: u32,
    nodes: &[SnapNode],
    logs: &[SnapLog],
)
    requires text { system_of text.now ≡ stands.Plan plan.now }
    requires nodes { nodes.now ≡ (saved_at plan.now slot).nodes }
    requires logs { map seen logs.now ≡ (saved_at plan.now slot).logs }
    ensures snap { IsSnap plan.now (record { text = text.now; body = saved_at plan.now slot }) }
{
    plan.keeps();
    code_is_in_range(plan);
    bytes_are(text);
    nodes_fit(nodes);
    logs_carry_bytes(logs);
    nodes_have_the_form();
    saved_parts_are_those_of_the_run();
    saved_counts_are_small();
    saved_nodes_may_be_kept();
    saved_links_may_be_kept();
    saved_wires_may_be_kept();
}

// The operands of the code of each node are in their ranges, as those of every image are.
fn code_is_in_range(plan: &Plan)
    ensures range { RunInRange plan.now.nodes }
{
    let nodes = plan.nodes();
    for node in nodes {
        let _code = node.image.code();
    }
}

fn bytes_are(text: &[u8])
    ensures bytes { AreBytes text.now }
{
    let _bytes = text.len();
}

// The numbers in the state of each node are of their types.
fn nodes_fit(nodes: &[SnapNode])
    ensures fit { AllByRecursion (λ (node : NodeSeen). NumbersFit node.state) nodes.now }
{
    for node in nodes {
        node_fits(&node.state);
    }
}
