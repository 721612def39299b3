//! `DriveError`, why a plan was not run or played to its end.
use std::alloc::AllocError;

/// Why a plan was not run or played to its end. See docs/OUTPUT.md.
#[derive(Clone, Copy, PartialEq, Eq, Debug)]
pub enum DriveError {
    /// Memory was wanting.
    Memory,
}

impl From<AllocError> for DriveError {
    ghost use Rattle.std.specs.Prelude.{◌≡◌};
    ghost use Rattle.run_drive.specs.declared.error.DriveError.TheVariants.{Memory};

    ghost from_gives = { λ _ e. e ≡ Memory };

    fn from(_error: AllocError) -> DriveError {
        DriveError::Memory
    }
}
