//! What instructions store.
ghost use Rattle.std.specs.Prelude.{◌≡◌, ◌<◌, ◌++◌, OnOk, Some, IfSome};
ghost use Rattle.step_model.specs.MemoryRows.{up};
ghost use Rattle.xs_instructions.specs.Instr.{InRange, MemoryInRange};
ghost use Rattle.issue_model.specs.Stores.{word_at, half_at, byte_at, memory_stores, flow_stores, kernel_stores};
ghost use Rattle.issue_model.specs.Issues.{size_name, stored_by, store_text};

use issue_model::{Size, Store};
use line_text::append_hex_word;
use std::alloc::AllocError;
use xs_base::Text;
use xs_instructions::{FlowIns, Instr, KernelIns, MemIns};
use xs_model::Thread;

/// `; SIZE ADDRESS = VALUE`, where what a thread did stores something. `th` is the thread before it. The error is want of memory.
pub(crate) fn append_stored(
    out: &mut Text,
    th: &Thread,
    done: Option<Instr>,
) -> Result<(), AllocError>
    requires range { IfSome done InRange }
    ensures { OnOk result (out.new ≡ out.old ++ store_text (stored_by th.now done)) }
{
    match stored_by(th, done) {
        None => Ok(()),
        Some(store) => append_store(out, store),
    }
}

/// `; SIZE ADDRESS = VALUE`, of a store. The error is want of memory.
pub(crate) fn append_store(out: &mut Text, store: Store) -> Result<(), AllocError>
    ensures { OnOk result (out.new ≡ out.old ++ store_text (Some store)) }
{
    out.append(b"; ")?;
    out.append(size_name(store.size))?;
    append_hex_word(out, store.at)?;
    out.append(b" = ")?;
    append_hex_word(out, store.value)
}

fn size_name(size: Size) -> &'static [u8]
    ensures { result.now ≡ size_name size }
{
    match size {
        Size::Byte => b"byte ",
        Size::Half => b"half ",
        Size::Word => b"word ",
    }
}

/// What is stored by what was done, by the thread before it.
pub(crate) fn stored_by(th: &Thread, done: Option<Instr>) -> Option<Store>
    requires range { IfSome done InRange }
    ensures { result ≡ stored_by th.now done }
{
    match done? {
        Instr::Memory(ins) => memory_stores(th, ins),
        Instr::Flow(ins) => flow_stores(th, ins),
        Instr::Kernel(ins) => kernel_stores(th, ins),
        _ => None,
    }
}

fn memory_stores(th: &Thread, ins: MemIns) -> Option<Store>
    requires range { MemoryInRange ins }
    ensures { result ≡ memory_stores th.now ins }
{
    match ins {
        MemIns::StwImm(d, x, i) => word_at(up(th.reg(x), 4, u32::from(i)), th.reg(d)),
        MemIns::Stw(d, x, y) => word_at(up(th.reg(x), 4, th.reg(y)), th.reg(d)),
        MemIns::StwDp(g, u) => word_at(up(th.dp, 4, u32::from(u)), th.reg(g)),
        MemIns::StwSp(g, u) => word_at(up(th.sp, 4, u32::from(u)), th.reg(g)),
        MemIns::St16(d, x, y) => half_at(up(th.reg(x), 2, th.reg(y)), th.reg(d)),
        MemIns::St8(d, x, y) => byte_at(up(th.reg(x), 1, th.reg(y)), th.reg(d)),
        _ => None,
    }
}

fn flow_stores(th: &Thread, ins: FlowIns) -> Option<Store>
    ensures { result ≡ flow_stores th.now ins }
{
    match ins {
        FlowIns::Entsp(u) if u != 0 => word_at(th.sp, th.lr),
        _ => None,
    }
}

fn kernel_stores(th: &Thread, ins: KernelIns) -> Option<Store>
    ensures { result ≡ kernel_stores th.now ins }
{
    match ins {
        KernelIns::Kentsp(_) => word_at(th.ksp, th.sp),
        KernelIns::StwSpc => word_at(up(th.sp, 4, 1), th.spc),
        KernelIns::StwSsr => word_at(up(th.sp, 4, 2), u32::from(th.ssr.bits)),
        KernelIns::StwSed => word_at(up(th.sp, 4, 3), th.sed),
        KernelIns::StwEt => word_at(up(th.sp, 4, 4), th.et),
        _ => None,
    }
}

fn word_at(at: u32, value: u32) -> Option<Store>
    ensures { result ≡ word_at at value }
{
    let size = Size::Word;
    Some(Store { size, at, value })
}

// The low half of a word.
fn half_at(at: u32, word: u32) -> Option<Store>
    ensures { result ≡ half_at at word }
{
    let size = Size::Half;
    let value = word % 65_536;
    Some(Store { size, at, value })
}

// The low byte of a word.
fn byte_at(at: u32, word: u32) -> Option<Store>
    ensures { result ≡ byte_at at word }
{
    let size = Size::Byte;
    let value = word % 256;
    Some(Store { size, at, value })
}

// The address that lies n accesses of a size above a base.
fn up(base: u32, size: u32, n: u32) -> u32
    requires size { size < 8 }
    ensures { result ≡ up base size n }
{
    ((u64::from(base) + u64::from(size) * u64::from(n)) % 4_294_967_296) as u32
}
