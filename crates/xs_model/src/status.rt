//! The status register. See docs/MACHINE.md.
ghost use Rattle.std.specs.Prelude.{⊤, ◌≡◌, [], ◌∷◌, codes};
ghost use Rattle.xs_model.specs.Status.{status_of};

use bitflags::{Flag, Flags};

/// Events may be taken.
pub const EEBLE: u8 = 0x01;

/// Interrupts may be taken.
pub const IEBLE: u8 = 0x02;

/// Set by a program alone; it has no effect here.
pub const INENB: u8 = 0x04;

/// The thread is in an interrupt's handler.
pub const ININT: u8 = 0x08;

/// The thread is in a trap's handler.
pub const INK: u8 = 0x10;

/// The thread waits for an event.
pub const WAITING: u8 = 0x40;

/// Set by a program alone; it has no effect here.
pub const FAST: u8 = 0x80;

/// The bits that `setsr` and `clrsr` set and clear: all but `WAITING`.
pub const SETTABLE: u8 = 0x9F;

/// The seven bits above, all that there are.
pub const STATUS_BITS: u8 = 0xDF;

/// The status register: a set of the seven bits.
#[derive(Clone, Copy, PartialEq, Eq)]
pub struct Status {
    pub bits: u8,
}

// The bits with their names.
const FLAGS: [Flag<Status>; 7] = [
    Flag {
        name: "EEBLE",
        value: Status { bits: EEBLE },
    },
    Flag {
        name: "IEBLE",
        value: Status { bits: IEBLE },
    },
    Flag {
        name: "INENB",
        value: Status { bits: INENB },
    },
    Flag {
        name: "ININT",
        value: Status { bits: ININT },
    },
    Flag {
        name: "INK",
        value: Status { bits: INK },
    },
    Flag {
        name: "WAITING",
        value: Status { bits: WAITING },
    },
    Flag {
        name: "FAST",
        value: Status { bits: FAST },
    },
];

impl Flags for Status {
    type Bits = u8;

    ghost exact = { ⊤ };

    ghost table = { (codes "EEBLE", 0x01) ∷ (codes "IEBLE", 0x02) ∷ (codes "INENB", 0x04) ∷ (codes "ININT", 0x08) ∷ (codes "INK", 0x10)
        ∷ (codes "WAITING", 0x40) ∷ (codes "FAST", 0x80) ∷ [] };

    ghost set_of = { λ status. status.bits };

    fn flags<'a>() -> &'a [Flag<Status>] {
        &FLAGS
    }

    fn bits(&self) -> u8 {
        self.bits
    }

    fn from_bits_retain(bits: u8) -> Status {
        Status { bits }
    }
}

impl Status {
    /// The status bits of a word; the register keeps none of its other bits.
    #[inline]
    pub fn of_word(word: u32) -> Status
        ensures value { result ≡ status_of word }
    {
        Status::from_bits_truncate((word % 256) as u8)
    }
}
