//! What resources give, as bytes.
ghost use Rattle.std.specs.Prelude.{◌≡◌, ◌++◌, OnOk};
ghost use Rattle.event_unit.specs.declared.state.EnableState.{EnableState};
ghost use Rattle.byte_forms.specs.Reading.{Gives};
ghost use Rattle.state_forms.specs.Enables.{byte_after, enabler, enable};

use crate::field::Field;
use byte_forms::{Fault, Reader, write_byte, write_flag, write_word};
use event_unit::EnableState;
use std::alloc::AllocError;
use xs_base::Text;
use xs_base::numbers::THREADS;

impl Field for EnableState {
    ghost Value = { EnableState };

    ghost view = { λ state. state };

    ghost form = { enable };

    #[tactic(auto, unfolding(crate::specs::Enables::enable))]
    fn read(from: &mut Reader) -> Result<EnableState, Fault> {
        let vector = from.read_word()?;
        let env = from.read_word()?;
        let interrupt = from.read_flag()?;
        let by = read_enabler(from)?;
        Ok(EnableState {
            vector,
            env,
            interrupt,
            by,
        })
    }

    #[tactic(auto, unfolding(crate::specs::Enables::enable))]
    fn write(&self, out: &mut Text) -> Result<(), AllocError> {
        write_word(out, self.vector)?;
        write_word(out, self.env)?;
        write_flag(out, self.interrupt)?;
        write_enabler(out, self.by)
    }
}

// Reads who enabled a resource.
#[tactic(auto, unfolding(crate::specs::Enables::enabler))]
fn read_enabler(from: &mut Reader) -> Result<Option<u8>, Fault>
    ensures value { Gives enabler (λ by. by) from.old result from.new }
{
    let n = from.read_byte_below(THREADS + 1)?;
    Ok(if n == 0 { None } else { Some(n - 1) })
}

// Writes who enabled a resource.
#[tactic(auto, unfolding(crate::specs::Enables::enabler))]
fn write_enabler(out: &mut Text, by: Option<u8>) -> Result<(), AllocError>
    ensures value { OnOk result (out.new ≡ out.old ++ enabler.write by) }
{
    write_byte(out, byte_after(by))
}

// The byte of who enabled a resource.
fn byte_after(by: Option<u8>) -> u8
    ensures { result ≡ byte_after by }
{
    match by {
        None => 0,
        Some(k) => { if k < THREADS { k + 1 } else { 255 } }
    }
}
