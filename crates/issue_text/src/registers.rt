//! The registers of threads, before an issue and after it.
ghost use Rattle.std.specs.Prelude.{◌≡◌, ◌==◌, ◌&&◌, ◌++◌, OnOk};
ghost use Rattle.trace_model.specs.Trace.{by_position};
ghost use Rattle.issue_model.specs.Registers.{name_of, kernel_name, value_in, kernel_register};
ghost use Rattle.issue_model.specs.Issues.{whose, register_text, set_by, registers_text, pc_text, thread_text, threads_text};

use crate::node_slot::thread_in;
use crate::sets::sets;
use issue_model::REGISTERS;
use line_text::append_hex_word;
use look_words::append_thread_name;
use std::alloc::AllocError;
use xs_base::Text;
use xs_instructions::Instr;
use xs_model::Thread;

/// What is told of the registers of all threads of a node, where thread k, 0 to 7, issued: they were this before and are that after, and an
/// instruction was done, or none. The error is want of memory.
#[tactic(auto, unfolding(trace_model::specs::Trace::by_position))]
pub(crate) fn append_threads<'a>(
    out: &mut Text,
    k: u8,
    done: Option<Instr>,
    before: &'a [Thread; 8],
    after: &'a [Thread; 8],
) -> Result<(), AllocError>
    ensures { OnOk result (out.new ≡ out.old ++ threads_text k done before.now after.now) }
{
    for j in 0..8u8 {
        let pair = Pair {
            k,
            j,
            before: &before[j as usize],
            after: thread_in(after, j),
        };
        append_thread(out, done, &pair)?;
    }
    Ok(())
}

// Thread j right before an issue by thread k, and after it.
#[derive(Clone, Copy)]
struct Pair<'a> {
    k: u8,
    j: u8,
    before: &'a Thread,
    after: &'a Thread,
}

// A register before an issue and after it, and whether what was done sets it.
#[derive(Clone, Copy)]
struct Register {
    is_set: bool,
    name: &'static [u8],
    before: u32,
    after: u32,
}

impl Pair<'_> {
    // The register with a number, where this was done.
    fn register(&self, done: Option<Instr>, i: u8) -> Register
        ensures is_set { result.is_set ≡ ((self.now.j == self.now.k) && set_by done i) }
        ensures name { result.name.now ≡ name_of i }
        ensures before { result.before ≡ value_in self.now.before.now i }
        ensures after { result.after ≡ value_in self.now.after.now i }
    {
        Register {
            is_set: self.j == self.k && is_set_by(done, i),
            name: name_of(i),
            before: value_in(self.before, i),
            after: value_in(self.after, i),
        }
    }
}

// Of thread j.
fn append_thread(out: &mut Text, done: Option<Instr>, pair: &Pair) -> Result<(), AllocError>
    ensures { OnOk result (out.new ≡ out.old ++ thread_text pair.now.k done pair.now.j pair.now.before.now pair.now.after.now) }
{
    append_registers(out, done, pair, &REGISTERS)?;
    append_pc(out, pair)?;
    Ok(())
}

// Of those of its registers that have these numbers.
fn append_registers(
    out: &mut Text,
    done: Option<Instr>,
    pair: &Pair,
    numbers: &[u8],
) -> Result<(), AllocError>
    ensures { OnOk result (out.new ≡ out.old ++ registers_text pair.now.k done pair.now.j pair.now.before.now pair.now.after.now numbers.now) }
{
    for i in numbers {
        append_register(out, pair.k, pair.j, &pair.register(done, *i))?;
    }
    Ok(())
}

// Of the pc, where it is another thread than the one that issued.
fn append_pc(out: &mut Text, pair: &Pair) -> Result<(), AllocError>
    ensures { OnOk result (out.new ≡ out.old ++ pc_text pair.now.k pair.now.j pair.now.before.now.pc pair.now.after.now.pc) }
{
    if pair.j == pair.k {
        return Ok(());
    }
    let pc = Register {
        is_set: false,
        name: b"pc",
        before: pair.before.pc,
        after: pair.after.pc,
    };
    append_register(out, pair.k, pair.j, &pc)
}

// `; NAME = VALUE`, of thread j where thread k issued, where the register is told.
fn append_register(out: &mut Text, k: u8, j: u8, register: &Register) -> Result<(), AllocError>
    ensures { OnOk result (out.new ≡ out.old ++ register_text (whose k j) register.now.is_set register.now.name.now register.now.before register.now.after) }
{
    if !register.is_set && register.before == register.after {
        return Ok(());
    }
    out.append(b"; ")?;
    append_owner(out, k, j)?;
    out.append(register.name)?;
    out.append(b" = ")?;
    append_hex_word(out, register.after)
}

// `tJ.`, where it is not the thread that issued.
fn append_owner(out: &mut Text, k: u8, j: u8) -> Result<(), AllocError>
    ensures { OnOk result (out.new ≡ out.old ++ whose k j) }
{
    if j == k {
        return Ok(());
    }
    append_thread_name(out, j)?;
    out.append(b".")
}

// Whether what was done sets a register.
fn is_set_by(done: Option<Instr>, g: u8) -> bool
    ensures { result ≡ set_by done g }
{
    match done {
        None => false,
        Some(ins) => sets(ins, g),
    }
}

// The value of a register.
fn value_in(th: &Thread, i: u8) -> u32
    ensures { result ≡ value_in th.now i }
{
    if i < 16 {
        th.reg(i)
    } else {
        kernel_register(th, i)
    }
}

// Of one that instructions do not name by its number.
fn kernel_register(th: &Thread, i: u8) -> u32
    ensures { result ≡ kernel_register th.now i }
{
    match i {
        16 => th.spc,
        17 => u32::from(th.ssr.bits),
        18 => th.sed,
        19 => th.et,
        20 => th.ed,
        21 => th.kep,
        22 => th.ksp,
        _ => u32::from(th.sr.bits),
    }
}

// The name of a register.
fn name_of(i: u8) -> &'static [u8]
    ensures { result.now ≡ name_of i }
{
    match i {
        0 => b"r0",
        1 => b"r1",
        2 => b"r2",
        3 => b"r3",
        4 => b"r4",
        5 => b"r5",
        6 => b"r6",
        7 => b"r7",
        8 => b"r8",
        9 => b"r9",
        10 => b"r10",
        11 => b"r11",
        12 => b"cp",
        13 => b"dp",
        14 => b"sp",
        15 => b"lr",
        _ => kernel_name(i),
    }
}

fn kernel_name(i: u8) -> &'static [u8]
    ensures { result.now ≡ kernel_name i }
{
    match i {
        16 => b"spc",
        17 => b"ssr",
        18 => b"sed",
        19 => b"et",
        20 => b"ed",
        21 => b"kep",
        22 => b"ksp",
        _ => b"sr",
    }
}
