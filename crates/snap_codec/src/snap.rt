//! `Snap`, a snapshot, and its reader and writer.
ghost use Rattle.std.specs.Prelude.{◌≡◌, ◌≤◌, ℕ, List, length, map, IfOk};
ghost use Rattle.sys_plan.specs.Plan.{PlanRec};
ghost use Rattle.system_model.specs.System as stands;
ghost use Rattle.system_model.specs.System.{system_of};
ghost use Rattle.snap_parts.specs.Parts.{body_of, seen};
ghost use Rattle.byte_forms.specs.Forms.{AreBytes};
ghost use Rattle.snap_codec.specs.Snaps as read;
ghost use Rattle.snap_codec.specs.Snaps.{SnapRec, IsSnapOfSome, head, longest_snapshot, snap_by, snap_bytes, snap_of, snap_with};
ghost use Rattle.snap_codec.specs.Reads.{ReadsSnap, GivesSnap, RefusesSnap, told};
ghost use Rattle.snap_codec.specs.declared.snap_kind.SnapKind.{SnapKind};

use crate::body::{read_rest, write_body};
use crate::head::{read_head, write_head};
use crate::snap_kind::{SnapError, SnapKind};
use byte_forms::{Fault, Reader};
use snap_parts::{SnapLog, SnapNode, SnapSystem};
use std::alloc::{AllocError, Global};
use std::marker::Model;
use sys_plan::Plan;
use system_text::{SystemError, read_system};
use xs_base::Text;

/// A snapshot has at most so many bytes.
pub const LONGEST_SNAPSHOT: usize = 8_388_608;

// The first byte of the text.
const TEXT_AT: u32 = 19;

/// What a run of a system has come to before a slot, with the text of the system. Contracts see a `SnapRec` of
/// `Rattle.snap_codec.specs.Snaps`. See docs/SNAPSHOTS.md.
#[derive(Drop)]
pub struct Snap {
    text: Text,
    system: SnapSystem,
}

impl Model for Snap {
    ghost use Rattle.snap_parts.specs.Parts.{body_of};
    ghost use Rattle.snap_codec.specs.Snaps.{SnapRec, IsSnapOfSome};

    ghost Value = { SnapRec };

    ghost view = { λ snap. record { text = snap.text; body = body_of snap.system } };

    ghost invariant = { λ snap. IsSnapOfSome (record { text = snap.text; body = body_of snap.system }) };
}

impl Snap {
    /// The snapshot before a slot of a system that a text stands for, with its nodes by position and its directed links and wires by
    /// number. It takes no memory.
    pub fn of(text: Text, slot: u32, nodes: Vec<SnapNode>, logs: Vec<SnapLog>) -> Snap
        requires facts { IsSnapOfSome (record { text = text; body = record { slot = slot; nodes = nodes.items; logs = map seen logs.items } }) }
        ensures value { result ≡ record { text = text; body = record { slot = slot; nodes = nodes.items; logs = map seen logs.items } } }
    {
        Snap {
            text,
            system: SnapSystem { slot, nodes, logs },
        }
    }

    /// The system text.
    pub fn text(&self) -> &[u8]
        ensures value { result.now ≡ self.now.text }
        ensures snap { IsSnapOfSome self.now }
    {
        self.text.bytes()
    }

    /// The slot s: slots 0 to s - 1 were run.
    pub fn slot(&self) -> u32
        ensures value { result ≡ self.now.body.slot }
        ensures snap { IsSnapOfSome self.now }
    {
        self.system.slot
    }

    /// The nodes by position.
    pub fn nodes(&self) -> &[SnapNode]
        ensures value { result.now ≡ self.now.body.nodes }
        ensures snap { IsSnapOfSome self.now }
    {
        self.system.nodes.as_slice()
    }

    /// The directed links and the wires by number.
    pub fn logs(&self) -> &[SnapLog]
        ensures value { map seen result.now ≡ self.now.body.logs }
        ensures snap { IsSnapOfSome self.now }
    {
        self.system.logs.as_slice()
    }

    /// All that it keeps beside the text.
    pub fn system(&self) -> &SnapSystem
        ensures value { body_of result.now ≡ self.now.body }
        ensures snap { IsSnapOfSome self.now }
    {
        &self.system
    }
}

/// The snapshot that the bytes stand for. An error comes exactly where they stand for a fault, and is that one, with its byte; want of
/// memory may come in place of either. See docs/SNAPSHOTS.md.
#[tactic(auto, using(crate::proofs::Outcomes::outcomes))]
pub fn read_snap(alloc: Global, bytes: &[u8]) -> Result<Snap, SnapError>
    ensures exact { ReadsSnap (snap_of bytes.now) result }
    ensures ok { IfOk result (λ snap. snap_of bytes.now ≡ read.Snap snap) }
    ensures found { (snap : SnapRec) → snap_of bytes.now ≡ read.Snap snap → GivesSnap snap result }
    ensures fault { (byte : ℕ) (kind : SnapKind) → snap_of bytes.now ≡ read.Fault byte kind → RefusesSnap byte kind result }
{
    read_all(alloc, bytes)
}

// The same, in one clause.
#[tactic(auto, unfolding(crate::specs::Snaps::snap_of))]
fn read_all(alloc: Global, bytes: &[u8]) -> Result<Snap, SnapError>
    ensures { ReadsSnap (snap_of bytes.now) result }
{
    if bytes.len() > LONGEST_SNAPSHOT {
        return Err(fault(0, SnapKind::TooLong));
    }
    let mut from = Reader::new(bytes);
    match read_head(&mut from) {
        Ok(text) => read_after(alloc, &mut from, bytes.len(), text),
        Err(fault) => Err(told(bytes.len(), fault)),
    }
}

// What is read after a text, of so many bytes in all.
fn read_after(
    alloc: Global,
    from: &mut Reader,
    count: usize,
    text: &[u8],
) -> Result<Snap, SnapError>
    requires few { count ≤ longest_snapshot }
    requires text { head.Holds text.now }
    requires bytes { AreBytes from.old }
    ensures { ReadsSnap (snap_by count text.now from.old (system_of text.now)) result }
{
    match read_system(alloc, text) {
        Ok(plan) => read_of_plan(alloc, from, count, text, &plan),
        Err(SystemError::Memory) => Err(SnapError::Memory),
        Err(_) => Err(fault(TEXT_AT, SnapKind::SystemRefused)),
    }
}

// The same of a text that has this plan.
fn read_of_plan(
    alloc: Global,
    from: &mut Reader,
    count: usize,
    text: &[u8],
    plan: &Plan,
) -> Result<Snap, SnapError>
    requires few { count ≤ longest_snapshot }
    requires text { head.Holds text.now }
    requires bytes { AreBytes from.old }
    requires plan { system_of text.now ≡ stands.Plan plan.now }
    ensures { ReadsSnap (snap_by count text.now from.old (stands.Plan plan.now)) result }
{
    match read_rest(alloc, from, plan) {
        Ok(system) => {
            let mut kept = Text::new(alloc);
            kept.append(text)?;
            Ok(Snap::of(kept, system.slot, system.nodes, system.logs))
        }
        Err(fault) => Err(told(count, fault)),
    }
}

fn fault(byte: u32, kind: SnapKind) -> SnapError
    ensures { result ≡ SnapError.Fault byte kind }
{
    SnapError::Fault { byte, kind }
}

// The fault of a field, of so many bytes in all.
fn told(count: usize, fault: Fault) -> SnapError
    requires few { count ≤ longest_snapshot }
    ensures { result ≡ told count fault }
{
    match fault {
        Fault::Memory => SnapError::Memory,
        Fault::Wrong(left) => SnapError::Fault {
            byte: count.saturating_sub(left) as u32,
            kind: SnapKind::BadSnapshot,
        },
    }
}

/// The bytes of a snapshot. Those that it was read of are written again. The error is want of memory. See docs/SNAPSHOTS.md.
pub fn write_snap(alloc: Global, snap: &Snap) -> Result<Text, AllocError>
    ensures text { IfOk result (λ text. (plan : PlanRec) → system_of snap.now.text ≡ stands.Plan plan → text ≡ snap_bytes plan snap.now) }
    ensures again { IfOk result (λ text. (bytes : List ℕ) → AreBytes bytes → snap_of bytes ≡ read.Snap snap.now → text ≡ bytes) }
    ensures read { IfOk result (λ text. length text ≤ longest_snapshot → snap_of text ≡ read.Snap snap.now) }
{
    write_parts(alloc, snap)
}

// The same, in one clause.
fn write_parts(alloc: Global, snap: &Snap) -> Result<Text, AllocError>
    ensures snap { IsSnapOfSome snap.now }
    ensures text { IfOk result (λ text. (plan : PlanRec) → system_of snap.now.text ≡ stands.Plan plan → text ≡ snap_bytes plan snap.now) }
{
    let mut out = Text::new(alloc);
    write_head(&mut out, snap.text())?;
    write_body(&mut out, snap.system())?;
    Ok(out)
}
