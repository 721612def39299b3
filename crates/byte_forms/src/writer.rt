//! Writers of the fields. Each puts a field's bytes at the end of a text. The error is want of memory, and leaves the text as it was or with
//! a part of the field.
ghost use Rattle.std.specs.Prelude.{◌≡◌, ◌++◌, OnOk};
ghost use Rattle.byte_forms.specs.Forms.{byte, half, word, long, flag, any, option};

use std::alloc::AllocError;
use xs_base::Text;

/// Writes a byte.
pub fn write_byte(out: &mut Text, b: u8) -> Result<(), AllocError>
    ensures value { OnOk result (out.new ≡ out.old ++ byte.write b) }
{
    out.append(&[b])
}

/// Writes a flag, as 0 or 1.
pub fn write_flag(out: &mut Text, there: bool) -> Result<(), AllocError>
    ensures value { OnOk result (out.new ≡ out.old ++ flag.write there) }
{
    write_byte(out, if there { 1 } else { 0 })
}

/// Writes a number as two bytes, the low one first.
pub fn write_half(out: &mut Text, n: u16) -> Result<(), AllocError>
    ensures value { OnOk result (out.new ≡ out.old ++ half.write n) }
{
    out.append(&n.to_le_bytes())
}

/// Writes a number as four bytes, the low one first.
pub fn write_word(out: &mut Text, n: u32) -> Result<(), AllocError>
    ensures value { OnOk result (out.new ≡ out.old ++ word.write n) }
{
    out.append(&n.to_le_bytes())
}

/// Writes a number as eight bytes, the low one first.
pub fn write_long(out: &mut Text, n: u64) -> Result<(), AllocError>
    ensures value { OnOk result (out.new ≡ out.old ++ long.write n) }
{
    out.append(&n.to_le_bytes())
}

/// Writes a flag and a byte, which is 0 where there is none.
pub fn write_option_byte(out: &mut Text, value: Option<u8>) -> Result<(), AllocError>
    ensures value { OnOk result (out.new ≡ out.old ++ (option byte any).write value) }
{
    write_flag(out, value.is_some())?;
    write_byte(out, value.unwrap_or(0))
}

/// Writes a flag and a number of two bytes, which is 0 where there is none.
pub fn write_option_half(out: &mut Text, value: Option<u16>) -> Result<(), AllocError>
    ensures value { OnOk result (out.new ≡ out.old ++ (option half any).write value) }
{
    write_flag(out, value.is_some())?;
    write_half(out, value.unwrap_or(0))
}

/// Writes a flag and a number of four bytes, which is 0 where there is none.
pub fn write_option_word(out: &mut Text, value: Option<u32>) -> Result<(), AllocError>
    ensures value { OnOk result (out.new ≡ out.old ++ (option word any).write value) }
{
    write_flag(out, value.is_some())?;
    write_word(out, value.unwrap_or(0))
}
