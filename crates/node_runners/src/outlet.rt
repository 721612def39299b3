//! What a node has sent by its link ends and not published yet. See docs/LOOKAHEAD.md.
ghost use Rattle.std.specs.Prelude.{ℕ, ◌≡◌, ◌<◌, ◌≤◌, ◌++◌, length, OnOk};
ghost use Rattle.serial_model.specs.Serial.{sent_by};
ghost use Rattle.node_runners.specs.Sent.{batch_at};

use crossings::Crossing;
use std::alloc::AllocError;
use trace_lines::Emissions;
use xs_base::Batch;

// How many entries a slot can add to a batch at most: a token and a credit.
const MOST_ENTRIES: usize = 2;

/// Makes room for the entries of a slot in each batch. The error is want of memory, and changes nothing but the room.
pub(crate) fn make_room(batches: &mut [Batch]) -> Result<(), AllocError>
    ensures same { (end : ℕ) → (batch_at batches.new end).entries ≡ (batch_at batches.old end).entries }
    ensures room { OnOk result ((end : ℕ) → end < length batches.new → 2 ≤ (batch_at batches.new end).spare) }
{
    for batch in batches.iter_mut() {
        batch.reserve(MOST_ENTRIES)?;
    }
    Ok(())
}

/// Puts what a slot gave after the batches of the link ends by which it leaves, in room that was made for it.
pub(crate) fn put_all(batches: &mut [Batch], slot: u32, given: &Emissions)
    requires few { length batches.old ≤ 8 }
    requires room { (end : ℕ) → end < length batches.old → 2 ≤ (batch_at batches.old end).spare }
    ensures puts { (end : ℕ) → end < length batches.old → (batch_at batches.new end).entries ≡ (batch_at batches.old end).entries ++ sent_by slot given.now end }
{
    for (end, batch) in batches.iter_mut().enumerate() {
        Crossing::sent(given, end as u8).put(slot, batch);
    }
}
