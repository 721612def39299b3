//! The form `resume SLOTS`.
ghost use Rattle.std.specs.Prelude.{◌≡◌, IfOk};
ghost use Rattle.snap_codec.specs.Snaps as read;
ghost use Rattle.snap_codec.specs.Snaps.{IsSnapOfSome};
ghost use Rattle.answer_model.specs.ResumeForm.{answer_to_snap, is_out_of_range, refused, resume_answer, slot_at};

use crate::refusals::{snap_fault_line, text_of_snap_kind};
use answer_model::{Answer, Status};
use snap_codec::{Snap, SnapError, read_snap};
use snap_run::rest_of;
use std::alloc::{AllocError, Global};

// The most slots that a run may have.
const MOST_SLOTS: u32 = 16_000_000;

// The first byte of a snapshot's text.
const TEXT_AT: u32 = 19;

/// Goes on from the snapshot that the input is, all nodes together, up to so many slots, and answers with the rest of the trace, or with the
/// line that refuses the snapshot. The error is want of memory. See docs/SNAPSHOTS.md.
pub fn answer(alloc: Global, slots: u32, input: &[u8]) -> Result<Answer, AllocError>
    ensures { IfOk result (λ answer. answer ≡ resume_answer slots input.now) }
{
    match read_snap(alloc, input) {
        Ok(snap) => answer_to_snap(alloc, slots, &snap),
        Err(SnapError::Fault { byte, kind }) => refused(alloc, byte, text_of_snap_kind(kind)),
        Err(SnapError::Memory) => Err(AllocError),
    }
}

// What is answered to a snapshot. Its slot is tested last.
fn answer_to_snap(alloc: Global, slots: u32, snap: &Snap) -> Result<Answer, AllocError>
    ensures { IfOk result (λ answer. answer ≡ answer_to_snap slots (read.Snap snap.now)) }
{
    if is_out_of_range(slots, snap) {
        return refused(alloc, slot_at(snap), b"N3 slot out of range");
    }
    let text = rest_of(alloc, snap, slots)?;
    Ok(Answer {
        text,
        status: Status::Done,
    })
}

// Whether no run of so many slots goes on from a snapshot: it is of a later slot, or of one that no run comes to.
fn is_out_of_range(slots: u32, snap: &Snap) -> bool
    ensures value { result ≡ is_out_of_range slots snap.now }
    ensures snap { IsSnapOfSome snap.now }
{
    slots < snap.slot() || MOST_SLOTS < snap.slot()
}

// Where the slot of a snapshot stands: after the text.
fn slot_at(snap: &Snap) -> u32
    ensures { result ≡ slot_at snap.now }
{
    TEXT_AT + snap.text().len() as u32
}

// The line that refuses a snapshot, at this byte. The error is want of memory.
fn refused(alloc: Global, byte: u32, wrong: &[u8]) -> Result<Answer, AllocError>
    ensures { IfOk result (λ answer. answer ≡ refused byte wrong.now) }
{
    Ok(Answer {
        text: snap_fault_line(alloc, byte, wrong)?,
        status: Status::SystemFault,
    })
}
