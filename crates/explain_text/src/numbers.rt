//! The ranges of values.
ghost use Rattle.std.specs.Prelude.{◌≡◌};
ghost use Rattle.source_model.specs.Values.{greatest_value, greatest_negative};

use source_model::Width;

/// The greatest number without a sign.
pub(crate) fn greatest_value(width: Width) -> u32
    ensures { result ≡ greatest_value width }
{
    match width {
        Width::Byte => 255,
        Width::Short => 65_535,
        Width::Word => 4_294_967_295,
    }
}

/// The greatest number that may have a sign.
pub(crate) fn greatest_negative(width: Width) -> u32
    ensures { result ≡ greatest_negative width }
{
    match width {
        Width::Byte => 128,
        Width::Short => 32_768,
        Width::Word => 2_147_483_648,
    }
}
