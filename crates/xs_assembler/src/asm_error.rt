ghost use Rattle.std.specs.Prelude.{◌≡◌};
ghost use Rattle.xs_assembler.specs.declared.asm_error.AsmError.TheVariants.{Memory};

use source_model::AsmKind;
use std::alloc::{AllocError, AllocFailed};
use thiserror::Error;

/// Why a source has no image.
#[derive(Debug, Drop, Error)]
pub enum AsmError {
    /// The source is refused: its first faulty line, counted from 1, and the first kind of the line's faults.
    #[error("line {line}: {kind:?}")]
    Fault { line: u32, kind: AsmKind },
    /// Memory was wanting.
    #[error("out of memory")]
    Memory,
}

impl From<AllocError> for AsmError {
    ghost from_gives = { λ _ e. e ≡ Memory };

    fn from(_e: AllocError) -> AsmError {
        AsmError::Memory
    }
}

impl<T: Drop> From<AllocFailed<T>> for AsmError {
    ghost from_gives = { λ _ e. e ≡ Memory };

    fn from(_e: AllocFailed<T>) -> AsmError {
        AsmError::Memory
    }
}
