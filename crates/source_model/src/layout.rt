/// A section of a source. The text comes first, then `.data`, then `.cp`.
#[derive(Clone, Copy, PartialEq, Eq, Debug)]
pub enum Section {
    Text,
    Data,
    Constants,
}

/// Where a label stands: how many instructions, or how many bytes, of its section come before it.
#[derive(Clone, Copy, PartialEq, Eq, Debug)]
pub struct Place {
    pub section: Section,
    pub offset: u64,
}

/// Where a statement may stand.
#[derive(Clone, Copy, PartialEq, Eq, Debug)]
pub enum Home {
    /// No statement, one that begins with no name, and `.align`.
    Anywhere,
    /// Instructions, `.text` and `.globl`.
    InText,
    /// `.word`, `.short`, `.byte` and `.space`: in `.data` and in `.cp`.
    InBytes,
    /// `.data`: in the text alone.
    BeginsData,
    /// `.cp`: in the text and in `.data`.
    BeginsConstants,
    /// A directive that there is not.
    Nowhere,
}

/// How long the sections are so far, and which one it is in.
#[derive(Clone, Copy)]
pub struct Layout {
    pub section: Section,
    pub instructions: u64,
    /// How many bytes `.data` has.
    pub data_bytes: u64,
    /// How many bytes `.cp` has.
    pub constant_bytes: u64,
}

/// How many bytes a value of `.byte`, `.short` or `.word` takes.
#[derive(Clone, Copy, PartialEq, Eq, Debug)]
pub enum Width {
    Byte,
    Short,
    Word,
}
