ghost use Rattle.std.specs.Prelude.{◌≡◌};
ghost use Rattle.xs_instructions.specs.Rows.{name_of, parts_of};
ghost use Rattle.xs_instructions.specs.Instr.{takes_value};

use crate::rows::{Part, Row};
use crate::table::table;

// What a row itself names: registers, then the fixed words and marks.
const R11: Part = Part::Register(11);

const CP: Part = Part::Register(12);

const DP: Part = Part::Register(13);

const SP: Part = Part::Register(14);

const LR: Part = Part::Register(15);

const RES: Part = Part::Word(0);

const T: Part = Part::Word(1);

const PC: Part = Part::Word(2);

const KEP: Part = Part::Word(3);

const KSP: Part = Part::Word(4);

const ED: Part = Part::Word(5);

const ET: Part = Part::Word(6);

const ID: Part = Part::Word(7);

const SPC: Part = Part::Word(8);

const SSR: Part = Part::Word(9);

const SED: Part = Part::Word(10);

const COMMA: Part = Part::Word(11);

const COLON: Part = Part::Word(12);

const LEFT: Part = Part::Word(13);

const RIGHT: Part = Part::Word(14);

const MINUS: Part = Part::Word(15);

// The part of an operand, by its letter or by the number that the row itself names.
macro_rules! part {
    (g) => { Part::AnyRegister };
    (i) => { Part::Small };
    (b) => { Part::Width };
    (u) => { Part::Short };
    (l) => { Part::Label };
    ($number:literal) => { Part::Exactly($number) };
    ($register:ident) => { Part::Common };
}

// What stands at each place of a form.
macro_rules! places {
    ([$($mark:ident)* $(($operand:tt) $($after:ident)*)*]) => {
        &[$($mark,)* $(part!($operand), $($after,)*)*]
    };
}

macro_rules! names {
    (; $($group:ident $kind:ident { $($row:ident $name:literal $form:tt)* })*) => {
        [$($($name,)*)*]
    };
}

macro_rules! parts {
    (; $($group:ident $kind:ident { $($row:ident $name:literal $form:tt)* })*) => {
        [$($(places!($form),)*)*]
    };
}

// The names of the rows, in the order of `Row`.
static NAMES: [&str; 158] = table!(names);

// What stands at each place after the name, in the same order.
static PARTS: [&[Part]; 158] = table!(parts);

impl Row {
    /// The name with which the row is written.
    pub fn name(self) -> &'static str
        ensures value { result.now ≡ name_of self }
    {
        NAMES[self as usize]
    }

    /// What stands at each place after the name.
    pub fn parts(self) -> &'static [Part]
        ensures value { result.now ≡ parts_of self }
    {
        PARTS[self as usize]
    }
}

impl Part {
    /// Whether a value is written at the part: an operand's, or the number that the row itself names.
    pub fn takes_value(self) -> bool
        ensures value { result ≡ takes_value self }
    {
        !matches!(self, Part::Register(_) | Part::Word(_))
    }
}
