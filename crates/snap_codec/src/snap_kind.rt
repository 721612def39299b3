//! Why bytes are no snapshot.
ghost use Rattle.std.specs.Prelude.{◌≡◌};
ghost use Rattle.snap_codec.specs.declared.snap_kind.SnapError.TheVariants.{Memory};

use std::alloc::AllocError;

/// Why bytes are no snapshot. See docs/SNAPSHOTS.md.
#[derive(Clone, Copy, PartialEq, Eq, Debug)]
pub enum SnapKind {
    /// N1: a field is cut or breaks its form, or makes a fact false together with the fields before it.
    BadSnapshot,
    /// N2: the system text is refused.
    SystemRefused,
    /// N4: there are more than 8,388,608 bytes.
    TooLong,
}

/// Why a snapshot was not read. See docs/SNAPSHOTS.md.
#[derive(Clone, Copy, PartialEq, Eq, Debug)]
pub enum SnapError {
    /// The bytes are no snapshot. `byte`, counted from 0, is the first one of the first field that is wrong, of the text where it is
    /// refused, and 0 where there are too many bytes.
    Fault { byte: u32, kind: SnapKind },
    /// Memory was wanting.
    Memory,
}

impl From<AllocError> for SnapError {
    ghost from_gives = { λ _ e. e ≡ Memory };

    fn from(_: AllocError) -> SnapError {
        SnapError::Memory
    }
}
