//! What is told of a byte that a text may not hold.
ghost use Rattle.std.specs.Prelude.{◌≡◌, ◌<◌, ◌++◌, OnOk};
ghost use Rattle.explain_model.specs.Meant.{hex_digit, hex_byte, bad_byte_line};

use crate::words;
use std::alloc::AllocError;
use xs_base::Text;

fn hex_digit(digit: u8) -> u8
    requires { digit < 16 }
    ensures { result ≡ hex_digit digit }
{
    if digit < 10 {
        b'0' + digit
    } else {
        b'a' - 10 + digit
    }
}

// The error is want of memory.
fn append_hex_byte(out: &mut Text, b: u8) -> Result<(), AllocError>
    ensures { OnOk result (out.new ≡ out.old ++ hex_byte b) }
{
    out.append(b"0x")?;
    out.append(&[hex_digit(b / 16), hex_digit(b % 16)])
}

/// The line on a byte that a text may not hold. The error is want of memory. See docs/LOOK.md.
pub fn append_bad_byte(out: &mut Text, b: u8) -> Result<(), AllocError>
    ensures { OnOk result (out.new ≡ out.old ++ bad_byte_line b) }
{
    out.append(b"byte ")?;
    append_hex_byte(out, b)?;
    out.append(words::may_not_stand())
}
