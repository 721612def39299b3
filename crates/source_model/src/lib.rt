//! What a source text stands for: definitions, and the plain types that they speak of. See docs/ASSEMBLY.md.
#![tactic(auto)]

mod layout;

pub use layout::{Home, Layout, Place, Section, Width};

/// Why a source is refused, in the order that decides within a line of several faults but for `LabelTwice` and
/// `DirectiveNotAllowed`, which come right after `BadByte`. See docs/ASSEMBLY.md.
#[derive(Clone, Copy, PartialEq, Eq, Debug)]
pub enum AsmKind {
    /// A1: a byte that is not allowed.
    BadByte,
    /// A2: an instruction name that no row has.
    UnknownName,
    /// A3: any other wrong shape.
    WrongOperands,
    /// A4: a value outside its operand's range.
    NumberOutOfRange,
    /// A5: a label that an earlier place defined.
    LabelTwice,
    /// A6: a name that no line defines.
    LabelMissing,
    /// A7: an unknown directive, or a statement in the wrong section.
    DirectiveNotAllowed,
    /// A8: more than 16,384 instructions.
    TooManyInstructions,
    /// A9: more than 65,536 bytes.
    TooManyBytes,
}
