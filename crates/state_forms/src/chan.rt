//! Channel ends as bytes.
ghost use Rattle.std.specs.Prelude.{◌≡◌, ◌==◌, if◌then◌else◌};
ghost use Rattle.net_model.specs.Chans.{is_chan_id};
ghost use Rattle.chan_ends.specs.declared.state.ChanState.{ChanState};
ghost use Rattle.byte_forms.specs.Forms.{word, option};
ghost use Rattle.byte_forms.specs.Reading.{Gives};
ghost use Rattle.state_forms.specs.Chans.{chan};

use crate::buffer::{read_buffer, write_buffer};
use crate::field::Field;
use byte_forms::{Fault, Reader, write_byte, write_flag, write_option_word};
use chan_ends::ChanState;
use std::alloc::AllocError;
use xs_base::Text;
use xs_base::numbers::CHAN_END_KIND;

impl Field for ChanState {
    ghost Value = { ChanState };

    ghost view = { λ c. c };

    ghost form = { chan };

    #[tactic(auto, unfolding(crate::specs::Chans::chan))]
    fn read(from: &mut Reader) -> Result<ChanState, Fault> {
        let used = from.read_flag()?;
        let net = from.read_byte_below(4)?;
        let dest = read_dest(from)?;
        let output = read_buffer(from, dest.is_some())?;
        let input = read_buffer(from, true)?;
        Ok(ChanState {
            used,
            net,
            dest,
            output,
            input,
        })
    }

    #[tactic(auto, unfolding(crate::specs::Chans::chan))]
    fn write(&self, out: &mut Text) -> Result<(), AllocError> {
        write_flag(out, self.used)?;
        write_byte(out, self.net)?;
        write_option_word(out, self.dest)?;
        write_buffer(out, &self.output)?;
        write_buffer(out, &self.input)
    }
}

// Reads a flag and a destination, whose low byte is that of channel ends, or 0 where the flag is 0.
fn read_dest(from: &mut Reader) -> Result<Option<u32>, Fault>
    ensures value { Gives (option word is_chan_id) (λ dest. dest) from.old result from.new }
{
    let there = from.read_flag()?;
    let left = from.left();
    let id = from.read_word()?;
    if is_dest(there, id) {
        Ok(if there { Some(id) } else { None })
    } else {
        Err(Fault::Wrong(left))
    }
}

// Whether a destination can stand behind a flag.
fn is_dest(there: bool, id: u32) -> bool
    ensures { result ≡ (if there then is_chan_id id else id == 0) }
{
    if there { is_chan_id(id) } else { id == 0 }
}

/// Whether an identifier's low byte is that of channel ends.
pub fn is_chan_id(id: u32) -> bool
    ensures { result ≡ is_chan_id id }
{
    id % 256 == u32::from(CHAN_END_KIND)
}
