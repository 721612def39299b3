use arrayvec::ArrayVec;

/// What one operand token of a line is, marks such as commas included. See docs/ASSEMBLY.md.
#[derive(Clone, Copy)]
pub enum Shape {
    /// A register by its number: 0 to 11 for r0 to r11, then cp, dp, sp and lr.
    Reg(u8),
    /// A number, or a name inside `dp[name]` and `cp[name]`.
    Num,
    /// Any other name that is no fixed word.
    Label,
    /// A fixed word or mark by its number.
    Word(u8),
}

/// A piece of an instruction's text.
#[derive(Clone, Copy)]
pub enum Piece {
    /// The row's name, or a fixed word or mark.
    Word(&'static str),
    /// A register by its number: 0 to 11 for r0 to r11, then cp, dp, sp and lr.
    Reg(u8),
    /// A number.
    Num(u32),
    /// A label, by the place of the instruction that it leads to, counted from 0.
    Place(u16),
}

/// The text of an instruction: its row's name, and then its operands with the fixed words and marks between them.
pub type Form = ArrayVec<Piece, 16>;

impl Default for Shape {
    fn default() -> Shape {
        Shape::Num
    }
}

impl Default for Piece {
    fn default() -> Piece {
        Piece::Num(0)
    }
}
