ghost use Rattle.std.specs.Prelude.{◌≡◌, ◌∷◌, map};
ghost use Rattle.xs_instructions.specs.Words.{fixed_text};
ghost use Rattle.xs_instructions.specs.Rows.{name_of, parts_of};
ghost use Rattle.xs_instructions.specs.declared.instr.Instr.TheVariants as instr;
ghost use Rattle.xs_instructions.specs.Spelling.{Text, spelled_piece, spelling};
ghost use Rattle.xs_instructions.specs.Filled.{filled, filled_at, operands_left};

use crate::instr::{FlowIns, Instr, KernelIns, MemIns, ResIns, ThreadIns, WordIns};
use crate::rows::{Part, Row};
use crate::shape::Piece::{Num, Place, Reg};
use crate::shape::{Form, Piece};
use crate::table::{group, table};

// An operand as it is written, by its letter, or the number that the row itself names.
macro_rules! piece {
    ($number:literal $same:literal) => { Num($number) };
    (i $number:ident) => { Num(u32::from($number)) };
    (b $number:ident) => { Num(u32::from($number)) };
    (u $number:ident) => { Num(u32::from($number)) };
    (l $place:ident) => { Place($place) };
    ($letter:ident $register:ident) => { Reg($register) };
}

// The operands of a form, as they are written.
macro_rules! pieces {
    ([$($mark:ident)* $(($operand:tt) $($after:ident)*)*]) => { [$(piece!($operand $operand)),*] };
}

// An instruction taken apart: its operands get their letters as names. A number that the row itself names is no field.
macro_rules! operands {
    ($kind:ident $row:ident [$($mark:ident)* $(($number:literal) $($after:ident)*)?]) => { $kind::$row };
    ($kind:ident $row:ident [$($mark:ident)* $(($operand:ident) $($after:ident)*)+]) => { $kind::$row($($operand),+) };
}

// What a group's instructions are written as.
macro_rules! forms {
    ($ins:ident; $group:ident $kind:ident { $($row:ident $name:literal $form:tt)* }) => {
        match $ins {
            $(operands!($kind $row $form) => form(Row::$row, &pieces!($form)),)*
        }
    };
}

/// How an instruction is written: its row's name, and then what stands at each place of its form. It takes no memory.
/// See docs/INSTRUCTIONS.md.
pub fn spelling(ins: Instr) -> Form
    ensures value { map spelled_piece result.items ≡ spelling ins }
{
    match ins {
        Instr::Words(ins) => words(ins),
        Instr::Memory(ins) => memory(ins),
        Instr::Flow(ins) => flow(ins),
        Instr::Kernel(ins) => kernel(ins),
        Instr::Threads(ins) => threads(ins),
        Instr::Resources(ins) => resources(ins),
    }
}

fn words(ins: WordIns) -> Form
    ensures { map spelled_piece result.items ≡ spelling (instr.Words ins) }
{
    table!(group Words forms ins)
}

fn memory(ins: MemIns) -> Form
    ensures { map spelled_piece result.items ≡ spelling (instr.Memory ins) }
{
    table!(group Memory forms ins)
}

fn flow(ins: FlowIns) -> Form
    ensures { map spelled_piece result.items ≡ spelling (instr.Flow ins) }
{
    table!(group Flow forms ins)
}

fn kernel(ins: KernelIns) -> Form
    ensures { map spelled_piece result.items ≡ spelling (instr.Kernel ins) }
{
    table!(group Kernel forms ins)
}

fn threads(ins: ThreadIns) -> Form
    ensures { map spelled_piece result.items ≡ spelling (instr.Threads ins) }
{
    table!(group Threads forms ins)
}

fn resources(ins: ResIns) -> Form
    ensures { map spelled_piece result.items ≡ spelling (instr.Resources ins) }
{
    table!(group Resources forms ins)
}

// A row's name and its form with the operands filled in.
fn form(row: Row, operands: &[Piece]) -> Form
    ensures { map spelled_piece result.items ≡ Text (name_of row) ∷ filled (parts_of row) (map spelled_piece operands.now) }
{
    let mut form = Form::new();
    form.push(Piece::Word(row.name()));
    let mut rest = operands;
    for part in row.parts() {
        let (piece, after) = filled_at(*part, rest);
        form.push(piece);
        rest = after;
    }
    form
}

// What stands at a part, and the operands after it.
fn filled_at(part: Part, operands: &[Piece]) -> (Piece, &[Piece])
    ensures piece { spelled_piece result.0 ≡ filled_at part (map spelled_piece operands.now) }
    ensures after { map spelled_piece result.1.now ≡ operands_left part (map spelled_piece operands.now) }
{
    match part {
        Part::Register(number) => (Reg(number), operands),
        Part::Word(number) => (Piece::Word(fixed_text(number)), operands),
        _ => match operands {
            [] => (Num(0), operands),
            [operand, after @ ..] => (*operand, after),
        },
    }
}

// The text of a fixed word or mark.
fn fixed_text(number: u8) -> &'static str
    ensures { result.now ≡ fixed_text number }
{
    match number {
        0 => "res",
        1 => "t",
        2 => "pc",
        3 => "kep",
        4 => "ksp",
        5 => "ed",
        6 => "et",
        7 => "id",
        8 => "spc",
        9 => "ssr",
        10 => "sed",
        11 => ",",
        12 => ":",
        13 => "[",
        14 => "]",
        15 => "-",
        _ => "",
    }
}
