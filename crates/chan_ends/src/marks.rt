//! `Marks`, in which buffers tokens wait.
ghost use Rattle.std.specs.Prelude.{◌≡◌, ◌<◌, List, length, slice_set};
ghost use Rattle.xs_base.specs.declared.numbers.TheConstants.{CHAN_ENDS};
ghost use Rattle.xs_model.specs.Record.{ChanRec};
ghost use Rattle.chan_ends.specs.Ends.{IsMask, has_output};
ghost use Rattle.xs_model.specs.Choices.{chan_is_ready};

use crate::chan_end::ChanEnd;
use bit_masks::with_bit;

/// The channel ends of a core in whose buffers tokens wait: bit `c` is that of channel end `c`. It is kept so that none
/// of them has to be asked.
#[derive(Clone, Copy, Default)]
pub(crate) struct Marks {
    /// In the output buffer.
    pub(crate) sending: u32,
    /// In the input buffer.
    pub(crate) ready: u32,
}

impl Marks {
    /// Notes the buffers of channel end `c`, 0 to 31, after a change there.
    pub(crate) fn note(&mut self, c: u8, end: &ChanEnd)
        requires { c < CHAN_ENDS }
        ensures sending { (chans : List ChanRec) → length chans ≡ CHAN_ENDS → IsMask has_output self.old.sending chans → IsMask has_output self.new.sending (slice_set chans c end.now) }
        ensures ready { (chans : List ChanRec) → length chans ≡ CHAN_ENDS → IsMask chan_is_ready self.old.ready chans → IsMask chan_is_ready self.new.ready (slice_set chans c end.now) }
    {
        self.sending = with_bit(self.sending, c, end.has_output());
        self.ready = with_bit(self.ready, c, end.has_input());
    }
}
