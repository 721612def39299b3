//! `Shift`, the shift register of a port.
ghost use Rattle.std.specs.Prelude.{◌≡◌, ◌<◌, ◌≤◌, ◌^◌, [], ◌++◌, length, take, drop};
ghost use Rattle.xs_model.specs.Bits.{bits_of, value_of, last_bits};

use std::marker::Model;

/// The bits that a port shifts, at most 32, as many at a time as the port is wide. Contracts see it as a `ShiftRec` of
/// `Rattle.port_shift.specs.Held`: the width, and the list of the bits, the first to leave first. See docs/PORTS.md.
#[derive(Drop)]
pub struct Shift {
    width: u32,
    // How many bits there are, and the number that they are, the first to leave lowest.
    count: u32,
    word: u32,
}

impl Model for Shift {
    ghost use Rattle.port_shift.specs.Held.{ShiftRec};

    ghost Value = { ShiftRec };

    ghost use Rattle.port_shift.specs.Inside.{held, Fits};

    ghost view = { held };

    ghost invariant = { Fits };
}

impl Shift {
    /// No bits, for a port that is this wide: 1, 4, 8, 16 or 32 pins.
    pub fn new(width: u32) -> Shift
        requires { width ≤ 32 }
        ensures { result ≡ record { width = width; bits = [] } }
    {
        Shift {
            width,
            count: 0,
            word: 0,
        }
    }

    /// Holds the low `bits` bits of `v`, at most 32, in place of those that were held; `v` has no others.
    pub fn load(&mut self, v: u32, bits: u32)
        requires count { bits ≤ 32 }
        requires fits { v < 2 ^ bits }
        ensures bits { self.new ≡ record self.old { bits = bits_of bits v } }
        ensures count { length self.new.bits ≡ bits }
    {
        self.count = bits;
        self.word = v;
    }

    /// Takes out as many bits as the port is wide, and gives the number that they are.
    #[inline]
    pub fn beat_out(&mut self) -> u32
        ensures value { result ≡ value_of (take self.old.width self.old.bits) }
        ensures fits { result < 2 ^ self.old.width }
        ensures rest { self.new ≡ record self.old { bits = drop self.old.width self.old.bits } }
    {
        let word = u64::from(self.word);
        let rest = word >> self.width;
        self.word = rest as u32;
        self.count = self.count.saturating_sub(self.width);
        (word - (rest << self.width)) as u32
    }

    /// Puts as many bits as the port is wide after those that are held, and keeps the last `tw`, at most 32. They are those
    /// of `v`, which has no others.
    #[inline]
    pub fn beat_in(&mut self, v: u32, tw: u32)
        requires least { self.old.width ≤ tw }
        requires most { tw ≤ 32 }
        requires fits { v < 2 ^ self.old.width }
        ensures { self.new ≡ record self.old { bits = last_bits tw (self.old.bits ++ bits_of self.old.width v) } }
    {
        let count = self.count + self.width;
        let word = u64::from(self.word) + (u64::from(v) << self.count);
        let dropped = count.saturating_sub(tw);
        self.count = count - dropped;
        self.word = (word >> dropped) as u32;
    }

    /// How many bits are held, 0 to 32.
    #[inline]
    pub fn bits(&self) -> u32
        ensures value { result ≡ length self.now.bits }
        ensures most { result ≤ 32 }
    {
        self.count
    }

    /// The number that the bits are that are held, in a port whose transfers have `tw` bits: the first to leave is its
    /// lowest, however many there are. Loaded as so many bits, it gives them again.
    #[inline]
    pub fn word(&self, _tw: u32) -> u32
        ensures value { result ≡ value_of self.now.bits }
        ensures fits { result < 2 ^ length self.now.bits }
        ensures again { bits_of (length self.now.bits) result ≡ self.now.bits }
    {
        self.word
    }

    /// Holds none.
    #[inline]
    pub fn clear(&mut self)
        ensures { self.new ≡ record self.old { bits = [] } }
    {
        self.count = 0;
        self.word = 0;
    }

    /// The width of a beat.
    #[inline]
    pub fn width(&self) -> u32
        ensures value { result ≡ self.now.width }
        ensures most { result ≤ 32 }
    {
        self.width
    }
}
