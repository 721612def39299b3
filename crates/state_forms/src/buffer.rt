//! Buffers of tokens as bytes.
ghost use Rattle.std.specs.Prelude.{◌≡◌, ◌++◌, ◌+◌, Bool, OnOk, if◌then◌else◌};
ghost use Rattle.xs_base.specs.declared.numbers.TheConstants.{BUFFER_TOKENS};
ghost use Rattle.byte_forms.specs.Reading.{Gives};
ghost use Rattle.state_forms.specs.Buffers.{buffer};

use crate::field::{read_elements, write_each};
use arrayvec::ArrayVec;
use byte_forms::{Fault, Reader, write_byte};
use std::alloc::AllocError;
use xs_base::numbers::BUFFER_TOKENS;
use xs_base::{Text, Token};

// What the count of tokens has to be below.
fn limit(may_have: bool) -> u8
    ensures { result ≡ (if may_have then BUFFER_TOKENS + 1 else 1) }
{
    if may_have { BUFFER_TOKENS + 1 } else { 1 }
}

/// Reads a buffer, which has tokens only where it may have some.
#[tactic(auto, unfolding(crate::specs::Buffers::buffer))]
pub fn read_buffer(from: &mut Reader, may_have: bool) -> Result<ArrayVec<Token, 8>, Fault>
    ensures value { Gives (buffer may_have) (λ tokens. tokens) from.old result from.new }
{
    let count = from.read_byte_below(limit(may_have))?;
    read_elements(from, usize::from(count))
}

/// Writes a buffer.
#[tactic(auto, unfolding(crate::specs::Buffers::buffer))]
pub fn write_buffer(out: &mut Text, tokens: &ArrayVec<Token, 8>) -> Result<(), AllocError>
    ensures value { OnOk result ((may_have : Bool) → out.new ≡ out.old ++ (buffer may_have).write tokens.now) }
{
    write_byte(out, tokens.len() as u8)?;
    write_each(out, tokens)
}
