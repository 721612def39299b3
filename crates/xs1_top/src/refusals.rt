//! The lines that refuse a snapshot, ranks, or a wave text, and what is answered to an input that is too long.
ghost use Rattle.std.specs.Prelude.{◌≡◌, ◌≤◌, false, length, nat_lt, IfOk};
ghost use Rattle.system_model.specs.System.{longest_input};
ghost use Rattle.answer_model.specs.PinsForm.{text_of_wave_kind, too_long, wave_fault_text};
ghost use Rattle.answer_model.specs.ResumeForm.{snap_fault_line, text_of_snap_kind};
ghost use Rattle.answer_model.specs.RoutesForm.{ranks_text, text_of_rank_kind};

use answer_model::{Answer, Status};
use decimal_text::append_decimal;
use rank_model::RankKind;
use snap_codec::SnapKind;
use std::alloc::{AllocError, Global};
use system_answers::frame_line;
use system_model::SysKind;
use wave_model::WaveKind;
use xs_base::Text;

// The most bytes that a system text may have, ranks before one, or a wave text.
const LONGEST_INPUT: usize = 4_194_304;

/// Whether an input is too long that is no snapshot: it has more than 4,194,304 bytes. See docs/OUTPUT.md.
pub fn is_too_long(input: &[u8]) -> bool
    ensures value { result ≡ nat_lt longest_input (length input.now) }
    ensures short { result ≡ false → length input.now ≤ longest_input }
{
    LONGEST_INPUT < input.len()
}

/// What is answered to an input that is too long. The error is want of memory.
pub fn too_long(alloc: Global) -> Result<Answer, AllocError>
    ensures { IfOk result (λ answer. answer ≡ too_long) }
{
    Ok(Answer {
        text: frame_line(alloc, 0, SysKind::TooLong)?,
        status: Status::SystemFault,
    })
}

/// The line of a refused snapshot: `snapshot byte B: ` and what is wrong there. The error is want of memory. See docs/SNAPSHOTS.md.
pub fn snap_fault_line(alloc: Global, byte: u32, wrong: &[u8]) -> Result<Text, AllocError>
    ensures { IfOk result (λ text. text ≡ snap_fault_line byte wrong.now) }
{
    let mut text = Text::new(alloc);
    text.append(b"snapshot byte ")?;
    append_decimal(&mut text, u64::from(byte))?;
    text.append(b": ")?;
    text.append(wrong)?;
    text.append(b"\n")?;
    Ok(text)
}

/// The line of refused ranks: `ranks line L: KIND TEXT`. The error is want of memory. See docs/OUTPUT.md.
pub fn ranks_line(alloc: Global, line: u32, kind: RankKind) -> Result<Text, AllocError>
    ensures { IfOk result (λ text. text ≡ ranks_text line kind) }
{
    let mut text = Text::new(alloc);
    text.append(b"ranks line ")?;
    append_decimal(&mut text, u64::from(line))?;
    text.append(b": ")?;
    text.append(text_of_rank_kind(kind))?;
    text.append(b"\n")?;
    Ok(text)
}

/// The line of a refused wave text: `wave line L: KIND TEXT`. The error is want of memory. See docs/WAVES.md.
pub fn wave_fault_line(alloc: Global, line: u32, kind: WaveKind) -> Result<Text, AllocError>
    ensures { IfOk result (λ text. text ≡ wave_fault_text line kind) }
{
    let mut text = Text::new(alloc);
    text.append(b"wave line ")?;
    append_decimal(&mut text, u64::from(line))?;
    text.append(b": ")?;
    text.append(text_of_wave_kind(kind))?;
    text.append(b"\n")?;
    Ok(text)
}

fn text_of_rank_kind(kind: RankKind) -> &'static [u8]
    ensures { result.now ≡ text_of_rank_kind kind }
{
    match kind {
        RankKind::BadLine => b"K1 bad line",
        RankKind::NoSuchLinkEnd => b"K2 no such link end",
        RankKind::GivenTwice => b"K3 given twice",
        RankKind::RankMissing => b"K4 rank missing",
    }
}

fn text_of_wave_kind(kind: WaveKind) -> &'static [u8]
    ensures { result.now ≡ text_of_wave_kind kind }
{
    match kind {
        WaveKind::BadLine => b"V1 bad line",
        WaveKind::NoSuchNode => b"V2 no such node",
    }
}

/// What is wrong in a snapshot that is refused.
pub fn text_of_snap_kind(kind: SnapKind) -> &'static [u8]
    ensures { result.now ≡ text_of_snap_kind kind }
{
    match kind {
        SnapKind::BadSnapshot => b"N1 bad snapshot",
        SnapKind::SystemRefused => b"N2 system refused",
        SnapKind::TooLong => b"N4 input too long",
    }
}
