//! What may be asked of a port, and what it answers.
ghost use Rattle.std.specs.Prelude.{◌≡◌, None};
ghost use Rattle.single_port.specs.declared.answers.Reply.TheVariants as reply;

use xs_model::{Clock, PinChange, Wait};

/// What a row asks of a port. See docs/PORTS.md.
#[derive(Clone, Copy)]
pub enum Ask {
    /// A mode, by its number.
    Mode(u32),
    /// To go by a clock: the reference, or a clock block that is on.
    Clock(Clock),
    /// To be sampled only where another port's pin is high, or without that.
    Strobe(Option<u8>),
    /// How many bits a transfer has.
    Width(u32),
    /// The value of its condition.
    Value(u32),
    /// The time of its next transfer.
    Time(u32),
    /// No time.
    NoTime,
    /// The next transfer that comes in.
    In,
    /// The same, of so many bits.
    InPart(u32),
    /// A word to go out.
    Out(u32),
    /// A word of which so many bits are to go out.
    OutPart(u32, u32),
    /// The end of the transfer that comes in: how many bits are there.
    EndIn,
    /// To wait until all went out.
    Sync,
    /// The stamp of the last transfer.
    Stamp,
    /// What its pins show.
    Peek,
    /// The value of its condition.
    GetValue,
}

/// What comes of what was asked.
#[derive(Clone, Copy)]
pub enum Reply {
    /// It is done.
    Done,
    /// It is done, and gives this word.
    Got(u32),
    /// The thread has to wait for this, and asks again then.
    Pause(Wait),
    /// The port is off, or this is not for it: nothing changed.
    Bad,
}

/// What a port answers, and how it changes what it drives its pins with, if it does.
#[derive(Clone, Copy)]
pub struct Answer {
    pub reply: Reply,
    pub pin: Option<PinChange>,
}

impl Answer {
    pub(crate) fn done() -> Answer
        ensures { result ≡ record { reply = reply.Done; pin = None } }
    {
        Answer {
            reply: Reply::Done,
            pin: None,
        }
    }

    pub(crate) fn got(word: u32) -> Answer
        ensures { result ≡ record { reply = reply.Got word; pin = None } }
    {
        Answer {
            reply: Reply::Got(word),
            pin: None,
        }
    }

    pub(crate) fn pause(wait: Wait, pin: Option<PinChange>) -> Answer
        ensures { result ≡ record { reply = reply.Pause wait; pin = pin } }
    {
        Answer {
            reply: Reply::Pause(wait),
            pin,
        }
    }

    pub(crate) fn bad() -> Answer
        ensures { result ≡ record { reply = reply.Bad; pin = None } }
    {
        Answer {
            reply: Reply::Bad,
            pin: None,
        }
    }
}
