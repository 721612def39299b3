ghost use Rattle.std.specs.Prelude.{◌≡◌};
ghost use Rattle.pin_scripts.specs.declared.pin_error.PinError.TheVariants.{Memory};

use std::alloc::{AllocError, AllocFailed};
use thiserror::Error;

/// Why a pin script is refused. In a line of several faults `BadLine` decides, and then `NoSuchNode`, `NoSuchPort`,
/// `ValueTooWide`, `SlotFalls` and `PinGivenTwice`. See docs/PINS.md.
#[derive(Clone, Copy, PartialEq, Eq, Debug)]
pub enum PinKind {
    /// P1: words that have not the form of a line, a number above 4,294,967,295, or a byte that is not allowed.
    BadLine,
    /// P2: a slot below that of the line before.
    SlotFalls,
    /// P3: a name that no port has.
    NoSuchPort,
    /// P4: a value of more bits than the port has pins.
    ValueTooWide,
    /// P5: the number of no node.
    NoSuchNode,
    /// P6: a second line for the same pin in the same slot.
    PinGivenTwice,
}

/// Why a text is no pin script.
#[derive(Debug, Drop, Error)]
pub enum PinError {
    /// The text is refused: its first faulty line, counted from 1, and the first kind of the line's faults.
    #[error("line {line}: {kind:?}")]
    Fault { line: u32, kind: PinKind },
    /// Memory was wanting.
    #[error("out of memory")]
    Memory,
}

impl From<AllocError> for PinError {
    ghost from_gives = { λ _ e. e ≡ Memory };

    fn from(_e: AllocError) -> PinError {
        PinError::Memory
    }
}

impl<T: Drop> From<AllocFailed<T>> for PinError {
    ghost from_gives = { λ _ e. e ≡ Memory };

    fn from(_e: AllocFailed<T>) -> PinError {
        PinError::Memory
    }
}
