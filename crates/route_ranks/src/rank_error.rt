ghost use Rattle.std.specs.Prelude.{◌≡◌};
ghost use Rattle.route_ranks.specs.declared.rank_error.RankError.TheVariants.{Fault, Memory};

use rank_model::RankKind;
use std::alloc::{AllocError, AllocFailed};
use thiserror::Error;

/// Why there is no verdict on the ranks of a system. See docs/ROUTES.md.
#[derive(Debug, Drop, Error)]
pub enum RankError {
    /// The ranks are refused: the first faulty line, counted from 1, and why.
    #[error("ranks line {line}: {kind:?}")]
    Fault { line: u32, kind: RankKind },
    /// Memory was wanting.
    #[error("out of memory")]
    Memory,
}

impl From<AllocError> for RankError {
    ghost from_gives = { λ _ e. e ≡ Memory };

    fn from(_e: AllocError) -> RankError {
        RankError::Memory
    }
}

impl<T: Drop> From<AllocFailed<T>> for RankError {
    ghost from_gives = { λ _ e. e ≡ Memory };

    fn from(_e: AllocFailed<T>) -> RankError {
        RankError::Memory
    }
}

// The refusal of ranks at a line.
pub fn fault(line: u32, kind: RankKind) -> RankError
    ensures { result ≡ Fault line kind }
{
    RankError::Fault { line, kind }
}
