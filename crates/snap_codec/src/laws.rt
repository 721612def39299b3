//! What holds of snapshots as bytes.
ghost use Rattle.std.specs.Prelude.{◌≡◌, ◌≤◌, ℕ, List, length};
ghost use Rattle.sys_plan.specs.Plan.{PlanRec};
ghost use Rattle.system_model.specs.System as stands;
ghost use Rattle.system_model.specs.System.{system_of};
ghost use Rattle.snap_parts.specs.Snaps.{IsSnapSystem};
ghost use Rattle.byte_forms.specs.Forms.{AreBytes};
ghost use Rattle.snap_codec.specs.Snaps as read;
ghost use Rattle.snap_codec.specs.Snaps.{SnapRec, IsSnap, IsSnapOfSome, longest_snapshot, snap_bytes, snap_of};

/// What is read of bytes is a snapshot whose bytes they are, and the bytes of a snapshot are read as it. A snapshot says of a system what a
/// run asks for that goes on from it. It does nothing. See docs/SNAPSHOTS.md.
pub fn snaps_are_lawful()
    ensures again { (bytes : List ℕ) (snap : SnapRec) (plan : PlanRec) → AreBytes bytes → snap_of bytes ≡ read.Snap snap → system_of snap.text ≡ stands.Plan plan →
        snap_bytes plan snap ≡ bytes }
    ensures read { (plan : PlanRec) (snap : SnapRec) → IsSnap plan snap → length (snap_bytes plan snap) ≤ longest_snapshot → snap_of (snap_bytes plan snap) ≡ read.Snap snap }
    ensures form { (bytes : List ℕ) (snap : SnapRec) → AreBytes bytes → snap_of bytes ≡ read.Snap snap → IsSnapOfSome snap }
    ensures system { (plan : PlanRec) (snap : SnapRec) → IsSnap plan snap → IsSnapSystem plan snap.body }
{}
