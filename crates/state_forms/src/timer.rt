//! Timers and clock blocks as bytes.
ghost use Rattle.timers_clocks.specs.declared.state.TimerState.{TimerState};
ghost use Rattle.timers_clocks.specs.declared.state.ClockState.{ClockState};
ghost use Rattle.state_forms.specs.Timers.{timer, clock};

use crate::field::Field;
use byte_forms::{Fault, Reader, write_byte, write_flag, write_word};
use std::alloc::AllocError;
use timers_clocks::{ClockState, TimerState};
use xs_base::Text;

impl Field for TimerState {
    ghost Value = { TimerState };

    ghost view = { λ state. state };

    ghost form = { timer };

    #[tactic(auto, unfolding(crate::specs::Timers::timer))]
    fn read(from: &mut Reader) -> Result<TimerState, Fault> {
        let used = from.read_flag()?;
        let after = from.read_flag()?;
        let value = from.read_word()?;
        Ok(TimerState { used, after, value })
    }

    #[tactic(auto, unfolding(crate::specs::Timers::timer))]
    fn write(&self, out: &mut Text) -> Result<(), AllocError> {
        write_flag(out, self.used)?;
        write_flag(out, self.after)?;
        write_word(out, self.value)
    }
}

impl Field for ClockState {
    ghost Value = { ClockState };

    ghost view = { λ state. state };

    ghost form = { clock };

    #[tactic(auto, unfolding(crate::specs::Timers::clock))]
    fn read(from: &mut Reader) -> Result<ClockState, Fault> {
        let on = from.read_flag()?;
        let running = from.read_flag()?;
        let div = from.read_byte()?;
        Ok(ClockState { on, running, div })
    }

    #[tactic(auto, unfolding(crate::specs::Timers::clock))]
    fn write(&self, out: &mut Text) -> Result<(), AllocError> {
        write_flag(out, self.on)?;
        write_flag(out, self.running)?;
        write_byte(out, self.div)
    }
}
