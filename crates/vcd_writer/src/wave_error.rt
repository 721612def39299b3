//! Why a wave text gives no pin script.
ghost use Rattle.std.specs.Prelude.{◌≡◌};
ghost use Rattle.vcd_writer.specs.declared.wave_error.WaveError.TheVariants.{Fault, Memory};

use std::alloc::{AllocError, AllocFailed};
use thiserror::Error;
use wave_model::WaveKind;

/// Why a wave text gives a node no pin script. See docs/WAVES.md.
#[derive(Debug, Drop, Error)]
pub enum WaveError {
    /// The text is refused: the first line with which no wave text goes on, counted from 1, or line 0 where there is no such node.
    #[error("wave line {line}: {kind:?}")]
    Fault { line: u32, kind: WaveKind },
    /// Memory was wanting.
    #[error("out of memory")]
    Memory,
}

impl From<AllocError> for WaveError {
    ghost from_gives = { λ _ e. e ≡ Memory };

    fn from(_e: AllocError) -> WaveError {
        WaveError::Memory
    }
}

impl<T: Drop> From<AllocFailed<T>> for WaveError {
    ghost from_gives = { λ _ e. e ≡ Memory };

    fn from(_e: AllocFailed<T>) -> WaveError {
        WaveError::Memory
    }
}

// The refusal of a wave text.
pub(crate) fn fault(line: u32, kind: WaveKind) -> WaveError
    ensures { result ≡ Fault line kind }
{
    WaveError::Fault { line, kind }
}
