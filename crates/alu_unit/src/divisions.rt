//! Which rows divide.
ghost use Rattle.std.specs.Prelude.{◌≡◌};
ghost use Rattle.step_model.specs.DividerRows.{is_division};

use xs_instructions::WordIns;

/// Whether a row on words divides: `divu`, `divs`, `remu`, `rems` or `ldivu`. See docs/INSTRUCTIONS.md.
#[inline]
pub fn is_division(ins: WordIns) -> bool
    ensures value { result ≡ is_division ins }
{
    matches!(
        ins,
        WordIns::Divu(..)
            | WordIns::Remu(..)
            | WordIns::Divs(..)
            | WordIns::Rems(..)
            | WordIns::Ldivu(..)
    )
}
