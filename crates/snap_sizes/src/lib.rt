//! How many bytes snapshots have. See docs/SNAPSHOTS.md.
#![tactic(auto)]

ghost use Rattle.std.specs.Prelude.{◌≡◌, ◌≤◌, length};
ghost use Rattle.sys_plan.specs.Plan.{PlanRec, IsPlan};
ghost use Rattle.snap_codec.specs.Snaps.{SnapRec, IsSnap, longest_snapshot, snap_bytes};
ghost use Rattle.snap_sizes.specs.Sizes.{snap_size, most_bytes};

/// A snapshot has as many bytes as its text, its nodes, links and wires, the tokens in their buffers and what is in flight say. So it has at most
/// 5,619,591, whatever the plan, and the limit of 8,388,608 bytes refuses nothing that is whole. It does nothing. See docs/SNAPSHOTS.md.
pub fn snaps_are_short()
    ensures size { (plan : PlanRec) (snap : SnapRec) → IsSnap plan snap → length (snap_bytes plan snap) ≡ snap_size plan snap }
    ensures most { (plan : PlanRec) (snap : SnapRec) → IsPlan plan → IsSnap plan snap → length (snap_bytes plan snap) ≤ longest_snapshot }
    ensures short { (plan : PlanRec) (snap : SnapRec) → IsPlan plan → IsSnap plan snap → length (snap_bytes plan snap) ≤ most_bytes }
{}
