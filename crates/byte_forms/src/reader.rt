//! `Reader`, bytes that are read from the front.
ghost use Rattle.std.specs.Prelude.{◌≡◌, ◌≢◌, ◌<◌, ◌==◌, [], length, nat_lt, if◌then◌else◌, IfOk, IfErr};
ghost use Rattle.byte_forms.specs.declared.fault.Fault.TheVariants.{Wrong};
ghost use Rattle.byte_forms.specs.Forms.{byte, half, word, long, bytes, below, flag, option_below};
ghost use Rattle.byte_forms.specs.Reading.{Gives};

use crate::fault::Fault;
use std::marker::Model;

/// Bytes that are read from the front, field by field. Contracts see those that are left. No call takes memory. A reader that answered a
/// fault has served: no clause says what is left then.
#[derive(Drop)]
pub struct Reader<'a> {
    rest: &'a [u8],
}

impl<'a> Model for Reader<'a> {
    ghost use Rattle.std.specs.Prelude.{List, ℕ};

    ghost Value = { List ℕ };

    ghost view = { λ reader. reader.rest.now };
}

impl<'a> Reader<'a> {
    /// A reader of all the bytes.
    pub fn new(bytes: &'a [u8]) -> Reader<'a>
        ensures value { result ≡ bytes.now }
    {
        Reader { rest: bytes }
    }

    /// How many bytes are left.
    pub fn left(&self) -> usize
        ensures value { result ≡ length self.now }
    {
        self.rest.len()
    }

    /// Reads a byte.
    #[tactic(auto, unfolding(crate::specs::Forms::read_byte))]
    pub fn read_byte(&mut self) -> Result<u8, Fault>
        ensures value { Gives byte (λ x. x) self.old result self.new }
    {
        match self.rest {
            [] => Err(Fault::Wrong(0)),
            [b, rest @ ..] => {
                let b = *b;
                self.rest = rest;
                Ok(b)
            }
        }
    }

    /// Reads a byte below a limit.
    pub fn read_byte_below(&mut self, limit: u8) -> Result<u8, Fault>
        ensures value { Gives (below byte limit) (λ x. x) self.old result self.new }
        ensures limit { IfOk result (λ n. n < limit) }
    {
        let left = self.left();
        let b = self.read_byte()?;
        if b < limit {
            Ok(b)
        } else {
            Err(Fault::Wrong(left))
        }
    }

    /// Reads a flag, which is 0 or 1.
    pub fn read_flag(&mut self) -> Result<bool, Fault>
        ensures value { Gives flag (λ x. x) self.old result self.new }
    {
        let b = self.read_byte_below(2)?;
        Ok(b == 1)
    }

    /// Reads so many bytes.
    #[tactic(auto, unfolding(crate::specs::Forms::read_bytes))]
    pub fn read_bytes(&mut self, n: usize) -> Result<&'a [u8], Fault>
        ensures value { Gives (bytes n) (λ x. x.now) self.old result self.new }
    {
        if self.rest.len() < n {
            return Err(Fault::Wrong(self.rest.len()));
        }
        let (front, rest) = self.rest.split_at(n);
        self.rest = rest;
        Ok(front)
    }

    /// Reads a number of two bytes, the low one first.
    #[tactic(auto, unfolding(crate::specs::Forms::read_number, crate::specs::Forms::read_bytes))]
    pub fn read_half(&mut self) -> Result<u16, Fault>
        ensures value { Gives half (λ x. x) self.old result self.new }
    {
        let b = self.read_bytes(2)?;
        Ok(u16::from_le_bytes([b[0], b[1]]))
    }

    /// Reads a number of four bytes, the low one first.
    #[tactic(auto, unfolding(crate::specs::Forms::read_number, crate::specs::Forms::read_bytes))]
    pub fn read_word(&mut self) -> Result<u32, Fault>
        ensures value { Gives word (λ x. x) self.old result self.new }
    {
        let b = self.read_bytes(4)?;
        Ok(u32::from_le_bytes([b[0], b[1], b[2], b[3]]))
    }

    /// Reads a number of four bytes that is below a limit.
    pub fn read_word_below(&mut self, limit: u64) -> Result<u32, Fault>
        ensures value { Gives (below word limit) (λ x. x) self.old result self.new }
        ensures limit { IfOk result (λ n. n < limit) }
    {
        let left = self.left();
        let n = self.read_word()?;
        if u64::from(n) < limit {
            Ok(n)
        } else {
            Err(Fault::Wrong(left))
        }
    }

    /// Reads a number of eight bytes, the low one first.
    #[tactic(auto, unfolding(crate::specs::Forms::read_number, crate::specs::Forms::read_bytes))]
    pub fn read_long(&mut self) -> Result<u64, Fault>
        ensures value { Gives long (λ x. x) self.old result self.new }
    {
        let b = self.read_bytes(8)?;
        Ok(u64::from_le_bytes([b[0], b[1], b[2], b[3], b[4], b[5], b[6], b[7]]))
    }

    /// Reads a number of eight bytes that is below a limit.
    pub fn read_long_below(&mut self, limit: u64) -> Result<u64, Fault>
        ensures value { Gives (below long limit) (λ x. x) self.old result self.new }
        ensures limit { IfOk result (λ n. n < limit) }
    {
        let left = self.left();
        let n = self.read_long()?;
        if n < limit {
            Ok(n)
        } else {
            Err(Fault::Wrong(left))
        }
    }

    /// Reads a flag and a byte that is below a limit, or 0 where the flag is 0.
    pub fn read_option_byte_below(&mut self, limit: u64) -> Result<Option<u8>, Fault>
        ensures value { Gives (option_below byte limit) (λ x. x) self.old result self.new }
    {
        let there = self.read_flag()?;
        let left = self.left();
        let n = self.read_byte()?;
        if is_behind(there, u64::from(n), limit) {
            Ok(if there { Some(n) } else { None })
        } else {
            Err(Fault::Wrong(left))
        }
    }

    /// Reads a flag and a number of two bytes that is below a limit, or 0 where the flag is 0.
    pub fn read_option_half_below(&mut self, limit: u64) -> Result<Option<u16>, Fault>
        ensures value { Gives (option_below half limit) (λ x. x) self.old result self.new }
    {
        let there = self.read_flag()?;
        let left = self.left();
        let n = self.read_half()?;
        if is_behind(there, u64::from(n), limit) {
            Ok(if there { Some(n) } else { None })
        } else {
            Err(Fault::Wrong(left))
        }
    }

    /// Reads a flag and a number of four bytes that is below a limit, or 0 where the flag is 0.
    pub fn read_option_word_below(&mut self, limit: u64) -> Result<Option<u32>, Fault>
        ensures value { Gives (option_below word limit) (λ x. x) self.old result self.new }
    {
        let there = self.read_flag()?;
        let left = self.left();
        let n = self.read_word()?;
        if is_behind(there, u64::from(n), limit) {
            Ok(if there { Some(n) } else { None })
        } else {
            Err(Fault::Wrong(left))
        }
    }

    /// That all bytes were read. Where some are left the fault is at the first of them.
    pub fn end(&self) -> Result<(), Fault>
        ensures value { IfOk result (λ _. self.now ≡ []) }
        ensures fault { IfErr result (λ fault. (fault ≡ Wrong (length self.now)) × (self.now ≢ [])) }
    {
        if self.rest.is_empty() {
            Ok(())
        } else {
            Err(Fault::Wrong(self.rest.len()))
        }
    }
}

// Whether a number can stand behind a flag: below the limit, or 0 where the flag is 0.
fn is_behind(there: bool, n: u64, limit: u64) -> bool
    ensures { result ≡ (if there then nat_lt n limit else n == 0) }
{
    if there { n < limit } else { n == 0 }
}
