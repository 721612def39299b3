//! Fields that have to be 0 where they are not allowed.
ghost use Rattle.std.specs.Prelude.{◌≡◌, ◌≤◌, ◌++◌, ◌^◌, OnOk};
ghost use Rattle.byte_forms.specs.Forms.{half, word, below};
ghost use Rattle.byte_forms.specs.Reading.{Gives};
ghost use Rattle.port_forms.specs.Ports.{low_byte, limit_where, flag_where, option_where};

use byte_forms::{Fault, Reader, write_byte};
use std::alloc::AllocError;
use xs_base::Text;

/// The limit of a number: 1 where it has to be 0.
pub fn byte_limit(allowed: bool, limit: u8) -> u8
    ensures { result ≡ limit_where allowed limit }
{
    if allowed { limit } else { 1 }
}

/// The limit of a number: 1 where it has to be 0.
pub fn word_limit(allowed: bool, limit: u64) -> u64
    ensures { result ≡ limit_where allowed limit }
{
    if allowed { limit } else { 1 }
}

/// 2 to the power of so many bits.
pub fn limit_of_bits(bits: u32) -> u64
    requires { bits ≤ 32 }
    ensures { result ≡ 2 ^ bits }
{
    1 << bits
}

/// Reads a flag, 0 where it is not allowed.
pub fn read_flag_where(from: &mut Reader, allowed: bool) -> Result<bool, Fault>
    ensures value { Gives (flag_where allowed) (λ x. x) from.old result from.new }
{
    let b = from.read_byte_below(byte_limit(allowed, 2))?;
    Ok(b == 1)
}

/// Reads a number of two bytes, 0 where it is not allowed.
pub fn read_half_where(from: &mut Reader, allowed: bool) -> Result<u16, Fault>
    ensures value { Gives (below half (limit_where allowed (2 ^ 16))) (λ x. x) from.old result from.new }
{
    let left = from.left();
    let n = from.read_half()?;
    if allowed || n == 0 {
        Ok(n)
    } else {
        Err(Fault::Wrong(left))
    }
}

/// Reads a flag, 0 where it is not allowed, and a number of two bytes, 0 where the flag is 0.
pub fn read_option_half_where(from: &mut Reader, allowed: bool) -> Result<Option<u16>, Fault>
    ensures value { Gives (option_where allowed half (2 ^ 16)) (λ x. x) from.old result from.new }
{
    let there = read_flag_where(from, allowed)?;
    let n = read_half_where(from, there)?;
    Ok(if there { Some(n) } else { None })
}

/// Reads a flag, 0 where it is not allowed, and a number of four bytes below a limit, 0 where the flag is 0.
pub fn read_option_word_where(
    from: &mut Reader,
    allowed: bool,
    limit: u64,
) -> Result<Option<u32>, Fault>
    ensures value { Gives (option_where allowed word limit) (λ x. x) from.old result from.new }
{
    let there = read_flag_where(from, allowed)?;
    let n = from.read_word_below(word_limit(there, limit))?;
    Ok(if there { Some(n) } else { None })
}

/// Writes the low byte of a number. The error is want of memory.
pub fn write_low_byte(out: &mut Text, n: u32) -> Result<(), AllocError>
    ensures value { OnOk result (out.new ≡ out.old ++ low_byte.write n) }
{
    write_byte(out, (n % 256) as u8)
}
