//! How the program ends.
ghost use Rattle.std.specs.Prelude.{◌≡◌};
ghost use Rattle.xs1_load.specs.Status.{status_number};

/// How the program ends. The numbers are those that the same ends of `xs1` have.
#[derive(Clone, Copy)]
pub enum Status {
    /// The load was written.
    Done,
    /// Memory was wanting. Nothing was written.
    Memory,
    /// The words are no number of a load. The usage line was written.
    Usage,
    /// A write failed.
    WriteFault,
}

impl Status {
    /// The number that the program ends with.
    pub fn number(self) -> u8
        ensures { result ≡ status_number self }
    {
        match self {
            Status::Done => 0,
            Status::Memory => 1,
            Status::Usage => 2,
            Status::WriteFault => 7,
        }
    }
}
