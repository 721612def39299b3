//! A run up to a slot, kept as a snapshot.
ghost use Rattle.std.specs.Prelude.{◌≡◌, IfOk};
ghost use Rattle.system_model.specs.System as stands;
ghost use Rattle.system_model.specs.System.{system_of};
ghost use Rattle.snap_model.specs.Saved.{saved_at};
ghost use Rattle.snap_codec.specs.Snaps as read;
ghost use Rattle.snap_codec.specs.Snaps.{snap_bytes, snap_of};

use crate::savable::saved_is_a_snapshot;
use crate::saved_logs::saved_logs;
use crate::saved_nodes::saved_nodes;
use run_plan::SerialMachine;
use snap_codec::{Snap, snaps_are_lawful};
use snap_sizes::snaps_are_short;
use std::alloc::{AllocError, Global};
use sys_plan::Plan;
use xs_base::Text;

/// What the serial machine has come to before a slot of a plan, of which this is the system text. Its bytes are read as it. The error is want
/// of memory. See docs/SNAPSHOTS.md.
pub fn save_at(alloc: Global, plan: &Plan, text: &[u8], slot: u32) -> Result<Snap, AllocError>
    requires text { system_of text.now ≡ stands.Plan plan.now }
    ensures saved { IfOk result (λ snap. snap ≡ record { text = text.now; body = saved_at plan.now slot }) }
    ensures read { IfOk result (λ snap. snap_of (snap_bytes plan.now snap) ≡ read.Snap snap) }
{
    let mut machine = SerialMachine::new(alloc, plan)?;
    machine.run(slot)?;
    let nodes = saved_nodes(alloc, plan, &machine)?;
    let logs = saved_logs(alloc, plan, &machine)?;
    saved_is_a_snapshot(plan, text, slot, &nodes, &logs);
    snaps_are_lawful();
    snaps_are_short();
    plan.keeps();
    let mut kept = Text::new(alloc);
    kept.append(text)?;
    Ok(Snap::of(kept, slot, nodes, logs))
}
