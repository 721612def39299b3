ghost use Rattle.std.specs.Prelude.{◌≡◌};
ghost use Rattle.system_text.specs.declared.system_error.SystemError.TheVariants.{Memory};

use pin_scripts::PinKind;
use source_model::AsmKind;
use std::alloc::{AllocError, AllocFailed};
use system_model::SysKind;
use thiserror::Error;

/// Why a system text has no plan. See docs/SYSTEM_TEXT.md.
#[derive(Debug, Drop, Error)]
pub enum SystemError {
    /// The frame is refused, at this line of the text, counted from 1. An input that is too long is refused at line 0.
    #[error("system line {line}: {kind:?}")]
    Frame { line: u32, kind: SysKind },
    /// The frame is accepted, and the source of the node with this number, 0 to 99, is refused, at this line of the
    /// source, counted from 1 after the line that begins it. No node of a lesser number has a refused source.
    #[error("source {node} line {line}: {kind:?}")]
    Source { node: u8, line: u32, kind: AsmKind },
    /// The frame and all sources are accepted, and the pin script is refused, at this line of the script, counted from 1
    /// after the line `pins`.
    #[error("pins line {line}: {kind:?}")]
    Pins { line: u32, kind: PinKind },
    /// Memory was wanting.
    #[error("out of memory")]
    Memory,
}

impl From<AllocError> for SystemError {
    ghost from_gives = { λ _ e. e ≡ Memory };

    fn from(_e: AllocError) -> SystemError {
        SystemError::Memory
    }
}

impl<T: Drop> From<AllocFailed<T>> for SystemError {
    ghost from_gives = { λ _ e. e ≡ Memory };

    fn from(_e: AllocFailed<T>) -> SystemError {
        SystemError::Memory
    }
}

// The refusal of a frame at a line.
pub fn refusal(line: u32, kind: SysKind) -> SystemError
    ensures { result ≡ SystemError.Frame line kind }
{
    SystemError::Frame { line, kind }
}
