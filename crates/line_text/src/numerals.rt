//! The words of the trace's lines.
ghost use Rattle.std.specs.Prelude.{◌≡◌, ◌<◌, ◌++◌, OnOk, OnErr};
ghost use Rattle.trace_model.specs.EventLines.{hex_word, hex_digit_at};

use std::alloc::AllocError;
use xs_base::Text;

/// Puts a word at the end of the text: `0x` and eight lower-case hex digits. The error is want of memory, and leaves
/// the text as it was. See docs/OUTPUT.md.
pub fn append_hex_word(out: &mut Text, w: u32) -> Result<(), AllocError>
    ensures ok { OnOk result (out.new ≡ out.old ++ hex_word w) }
    ensures err { OnErr result (out.new ≡ out.old) }
{
    let digits = [
        b'0',
        b'x',
        digit_at(0x1000_0000, w),
        digit_at(0x100_0000, w),
        digit_at(0x10_0000, w),
        digit_at(0x1_0000, w),
        digit_at(0x1000, w),
        digit_at(0x100, w),
        digit_at(0x10, w),
        digit_at(1, w),
    ];
    out.append(&digits)
}

// The hex digit at this unit, a power of 16.
#[inline]
fn digit_at(unit: u32, w: u32) -> u8
    requires { 0 < unit }
    ensures { result ≡ hex_digit_at unit w }
{
    let digit = (w / unit % 16) as u8;
    if digit < 10 {
        b'0' + digit
    } else {
        b'a' + (digit - 10)
    }
}
