ghost use Rattle.std.specs.Prelude.{◌≡◌, ◌%◌, [], ◌∷◌, IfSome};
ghost use Rattle.xs_instructions.specs.Operands.{at, made, row_of, values_of};
ghost use Rattle.std.specs.List.{filter};
ghost use Rattle.xs_instructions.specs.Instr.{InRange, takes_value, value_parts};
ghost use Rattle.xs_instructions.specs.Find.{is_in_range, are_in_range, build, takes_value_at};
ghost use Rattle.xs_instructions.specs.Kept.{kept};

use crate::instr::{FlowIns, Instr, KernelIns, MemIns, ResIns, ThreadIns, WordIns};
use crate::rows::{Part, Row};
use crate::table::table;

// The value with a number in order, from 0, as far as it fits a byte.
fn byte(values: &[u32], number: usize) -> u8
    ensures { result ≡ at values.now number % 256 }
{
    match values.get(number) {
        Some(value) => (value % 256) as u8,
        None => 0,
    }
}

// The same, as far as it fits two bytes.
fn short(values: &[u32], number: usize) -> u16
    ensures { result ≡ at values.now number % 65536 }
{
    match values.get(number) {
        Some(value) => (value % 65536) as u16,
        None => 0,
    }
}

impl Row {
    /// The row's instruction with these values: one for each operand and for each number that the row itself names, in
    /// the order in which they are written. None comes exactly where a value is outside its operand's range, or there
    /// are more or fewer of them.
    pub fn build(self, values: &[u32]) -> Option<Instr>
        ensures value { result ≡ build self values.now }
        ensures in_range { IfSome result InRange }
        ensures row { IfSome result (λ ins. row_of ins ≡ self) }
        ensures values { IfSome result (λ ins. values_of ins ≡ values.now) }
    {
        if are_in_range(self.parts(), values) {
            Some(made(self, values))
        } else {
            None
        }
    }

    /// Whether a value is written at the place with this number after the row's name, from 0.
    pub fn takes_value(self, at: usize) -> bool
        ensures value { result ≡ takes_value_at self at }
    {
        match self.parts().get(at) {
            Some(part) => part.takes_value(),
            None => false,
        }
    }
}

// The fields of an instruction, one after another, out of pairs of what a byte and two bytes hold of the values.
macro_rules! fields {
    ($make:path, [$($field:ident)*] [$($rest:tt)*]) => { $make($($field),*) };
    ($make:path, [$($field:ident)*] [($byte:ident $short:ident) $($rest:tt)*] u $($operands:ident)*) => {
        fields!($make, [$($field)* $short] [$($rest)*] $($operands)*)
    };
    ($make:path, [$($field:ident)*] [($byte:ident $short:ident) $($rest:tt)*] l $($operands:ident)*) => {
        fields!($make, [$($field)* $short] [$($rest)*] $($operands)*)
    };
    ($make:path, [$($field:ident)*] [($byte:ident $short:ident) $($rest:tt)*] $operand:ident $($operands:ident)*) => {
        fields!($make, [$($field)* $byte] [$($rest)*] $($operands)*)
    };
}

// An instruction put together. A number that the row itself names is no field.
macro_rules! instruction {
    ($kind:ident $row:ident [$($mark:ident)* $(($number:literal) $($after:ident)*)?] $values:tt) => { $kind::$row };
    ($kind:ident $row:ident [$($mark:ident)* $(($operand:ident) $($after:ident)*)+] $values:tt) => {
        fields!($kind::$row, [] $values $($operand)+)
    };
}

macro_rules! instructions {
    ($of:ident $a:ident $b:ident $c:ident $d:ident $e:ident $f:ident $first:ident $second:ident; $($group:ident $kind:ident { $($row:ident $name:literal $form:tt)* })*) => {
        match $of {
            $($(Row::$row => Instr::$group(instruction!($kind $row $form [($a $first) ($b $second) ($c $c) ($d $d) ($e $e) ($f $f)])),)*)*
        }
    };
}

// The row's instruction with these values, each as far as it fits its field. Two bytes have the first two alone.
fn made(row: Row, values: &[u32]) -> Instr
    ensures { result ≡ made row (kept (value_parts row) values.now) }
{
    let a = byte(values, 0);
    let b = byte(values, 1);
    let c = byte(values, 2);
    let d = byte(values, 3);
    let e = byte(values, 4);
    let f = byte(values, 5);
    let first = short(values, 0);
    let second = short(values, 1);
    table!(instructions row a b c d e f first second)
}

// Whether a value is in the range of its part.
fn is_in_range(part: Part, value: u32) -> bool
    ensures { result ≡ is_in_range part value }
{
    match part {
        Part::Common | Part::Small => value < 12,
        Part::AnyRegister => value < 16,
        Part::Width => matches!(value, 1..=8 | 16 | 24 | 32),
        Part::Short | Part::Label => value < 65_536,
        Part::Exactly(number) => value == number,
        Part::Register(_) | Part::Word(_) => false,
    }
}

// Whether there is one value for each part that takes one, and all are in range.
fn are_in_range(parts: &[Part], values: &[u32]) -> bool
    ensures { result ≡ are_in_range (filter takes_value parts.now) values.now }
{
    match parts {
        [] => values.is_empty(),
        [part, parts @ ..] if !part.takes_value() => are_in_range(parts, values),
        [part, parts @ ..] => match values {
            [] => false,
            [value, values @ ..] => is_in_range(*part, *value) && are_in_range(parts, values),
        },
    }
}
