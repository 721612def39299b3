//! Numbers as decimal digits.
#![tactic(auto)]

ghost use Rattle.std.specs.Prelude.{◌≡◌, ◌++◌, OnOk, OnErr, decimal};

use itoa::Buffer;
use std::alloc::AllocError;
use xs_base::Text;

/// Puts a number at the end of the text, in decimal. The error is want of memory, and leaves the text as it was.
/// See docs/OUTPUT.md.
pub fn append_decimal(out: &mut Text, n: u64) -> Result<(), AllocError>
    ensures ok { OnOk result (out.new ≡ out.old ++ decimal n) }
    ensures err { OnErr result (out.new ≡ out.old) }
{
    let mut buffer = Buffer::new();
    out.append(buffer.format(n).as_bytes())
}

/// The same for a number of up to 128 bits, as a sum over all nodes of a run.
pub fn append_wide_decimal(out: &mut Text, n: u128) -> Result<(), AllocError>
    ensures ok { OnOk result (out.new ≡ out.old ++ decimal n) }
    ensures err { OnErr result (out.new ≡ out.old) }
{
    let mut digits = Buffer::new();
    out.append(digits.format(n).as_bytes())
}
