//! Why a line is refused, told of the line: what may stand at a place, in words, and how far a line of a source has a form. Definitions, and the plain
//! types that they speak of. See docs/LOOK.md.
#![tactic(auto)]

use source_model::{Section, Width};
use xs_instructions::Part;

/// What may stand at one place of a line.
#[derive(Clone, Copy)]
pub enum Want {
    /// What a row of the instruction table has there.
    Operand(Part),
    /// cp, dp, sp or lr, beside r0 to r11.
    OtherRegister,
    /// What counts words from the start of a section, in `dp[u]` and `cp[u]`: a number, or a label.
    Offset(Section),
    /// A number in this range.
    Number(u32, u32),
    /// A name, whichever.
    AnyName,
    /// A value of `.byte`, `.short` or `.word`.
    Value(Width),
    /// What comes after such a value: a comma, or the end of the line.
    CommaOrEnd,
    /// The end of the line.
    LineEnd,
    /// What may begin a statement in a section.
    Statement(Section),
    /// A name that is no label yet.
    NewLabel,
    /// A name that the language does not keep for itself.
    FreeName,
    /// A byte that a text may hold.
    AllowedByte,
    /// A word, letter by letter.
    Word(FixedWord),
    /// `N:E`, a node and one of its link ends.
    LinkEnd,
    /// `N:E`, a node and one of its ends, of links or of wires.
    StepEnd,
    /// `N:P`, a node by a number of the frame and a port.
    WirePin,
    /// `N:P`, a node by any number and a port.
    ScriptPin,
}

/// A word that lines of a frame and of a pin script have as it stands.
#[derive(Clone, Copy)]
pub enum FixedWord {
    /// `xs1`
    Xs1,
    /// `1`, the edition
    One,
    /// `2`, the edition
    Two,
    /// `node`
    Node,
    /// `id`
    Id,
    /// `link`
    Link,
    /// `delay`
    Delay,
    /// `gap`
    Gap,
    /// `net`
    Net,
    /// `bit`
    Bit,
    /// `wire`
    Wire,
    /// `source`
    Source,
    /// `pins`
    Pins,
    /// `play`
    Play,
    /// `take`
    Take,
    /// `run`
    Run,
    /// `send`
    Send,
    /// `end`
    End,
}

/// In what a name is near another one.
#[derive(Clone, Copy)]
pub enum Nearness {
    /// It is the same but for the case of letters.
    Case,
    /// It has a byte more or less, or another byte at one place, or two neighbours swapped.
    Edit,
    /// One of them begins with the other.
    Beginning,
}

/// How many names are told that are near another one.
pub const MOST_NEAR: usize = 5;

/// The names of all directives.
pub static DIRECTIVES: [&str; 9] = [
    ".text", ".globl", ".align", ".data", ".cp", ".word", ".short", ".byte", ".space",
];
