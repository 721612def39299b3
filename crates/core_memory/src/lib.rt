//! The node's memory: 65,536 bytes from 0x00010000 on, little-endian. See docs/MACHINE.md.
#![tactic(auto)]

ghost use Rattle.std.specs.Prelude.{◌≡◌, ◌+◌, ◌<◌, ◌≤◌, ◌↔◌, false, Some, None, length, drop, IfOk, OnOk, OnErr, IsErr, MatchOption, MatchResult};
ghost use Rattle.std.specs.Result.{result_ok};
ghost use Rattle.xs_base.specs.declared.numbers.TheConstants.{MEMORY_BYTES};
ghost use Rattle.xs_base.specs.Words.{sext};
ghost use Rattle.xs_model.specs.Memory.{is_word_address, is_half_address, is_byte_address, is_address_of, word_here, half_here, byte_here, bytes_of_word, bytes_of_half, low_byte, load_word, load_half, load_byte, store_word, store_half, store_byte, first_memory};
ghost use Rattle.core_memory.specs.Places.{IsPlaceOf, with_bytes_at};
ghost use Rattle.core_memory.specs.Order.{WordsInOrder, NextWord, NoWordsLeft};

use std::alloc::{AllocError, Global};
use std::marker::Model;
use xs_base::numbers::{MEMORY_BYTES, MEMORY_START};

/// An access that the memory refuses: its address is outside the memory, or no multiple of the access's size.
#[derive(Clone, Copy, PartialEq, Eq, Debug)]
pub struct BadAddress;

/// The memory of a node. Contracts see the list of its 65,536 bytes. See docs/MACHINE.md.
#[derive(Drop)]
pub struct Ram {
    bytes: Vec<u8>,
}

impl Model for Ram {
    ghost use Rattle.std.specs.Prelude.{◌≡◌, List, ℕ, length};
    ghost use Rattle.xs_base.specs.declared.numbers.TheConstants.{MEMORY_BYTES};

    ghost Value = { List ℕ };

    ghost view = { λ ram. ram.bytes.items };

    ghost invariant = { λ ram. length ram.bytes.items ≡ MEMORY_BYTES };
}

impl Ram {
    /// The memory as a node starts: the image's bytes from 0x00010000 on, at most 65,536 of them, and zeros after
    /// them. The error is want of memory.
    pub fn new(alloc: Global, bytes: &[u8]) -> Result<Ram, AllocError>
        requires { length bytes.now ≤ 65536 }
        ensures image { IfOk result (λ ram. ram ≡ first_memory bytes.now) }
    {
        let mut memory = Vec::with_capacity(alloc, MEMORY_BYTES as usize)?;
        memory.extend_from_slice(bytes)?;
        memory.resize(MEMORY_BYTES as usize, 0)?;
        Ok(Ram { bytes: memory })
    }

    /// A memory with the same bytes. The error is want of memory.
    pub fn copy(&self, alloc: Global) -> Result<Ram, AllocError>
        ensures same { IfOk result (λ ram. ram ≡ self.now) }
    {
        let bytes = Vec::from_slice(alloc, self.bytes.as_slice())?;
        Ok(Ram { bytes })
    }

    /// From now on its bytes are those of another memory. It takes no memory.
    pub fn copy_from(&mut self, other: &Ram)
        ensures same { self.new ≡ other.now }
    {
        self.bytes
            .as_mut_slice()
            .copy_from_slice(other.bytes.as_slice());
    }

    /// The 65,536 bytes, from that at 0x00010000 on.
    pub fn bytes(&self) -> &[u8]
        ensures value { result.now ≡ self.now }
        ensures size { length self.now ≡ MEMORY_BYTES }
    {
        self.bytes.as_slice()
    }

    /// The word at an address. `BadAddress` comes exactly where the address is outside the memory or no multiple
    /// of 4. See docs/MACHINE.md.
    #[inline]
    pub fn load32(&self, at: u32) -> Result<u32, BadAddress>
        ensures value { result_ok result ≡ load_word self.now at }
        ensures cases { MatchResult result (λ w. load_word self.now at ≡ Some w) (λ _. load_word self.now at ≡ None) }
        ensures err { IsErr result ↔ is_word_address at ≡ false }
        ensures size { length self.now ≡ MEMORY_BYTES }
    {
        let bytes = self.bytes.as_slice();
        let Some(place) = place_of(at, 4) else {
            return Err(BadAddress);
        };
        Ok(word_at(bytes, place))
    }

    /// The half at an address, extended by its sign. `BadAddress` comes exactly where the address is outside the
    /// memory or no multiple of 2. See docs/MACHINE.md.
    #[inline]
    pub fn load16s(&self, at: u32) -> Result<u32, BadAddress>
        ensures value { result_ok result ≡ load_half self.now at }
        ensures cases { MatchResult result (λ w. load_half self.now at ≡ Some w) (λ _. load_half self.now at ≡ None) }
        ensures err { IsErr result ↔ is_half_address at ≡ false }
    {
        let bytes = self.bytes.as_slice();
        let Some(place) = place_of(at, 2) else {
            return Err(BadAddress);
        };
        Ok(signed_half_at(bytes, place))
    }

    /// The byte at an address, extended by zeros. `BadAddress` comes exactly where the address is outside the
    /// memory. See docs/MACHINE.md.
    #[inline]
    pub fn load8u(&self, at: u32) -> Result<u32, BadAddress>
        ensures value { result_ok result ≡ load_byte self.now at }
        ensures cases { MatchResult result (λ w. load_byte self.now at ≡ Some w) (λ _. load_byte self.now at ≡ None) }
        ensures err { IsErr result ↔ is_byte_address at ≡ false }
    {
        let bytes = self.bytes.as_slice();
        let Some(place) = place_of(at, 1) else {
            return Err(BadAddress);
        };
        Ok(byte_at(bytes, place))
    }

    /// Puts a word at an address. `BadAddress` comes exactly where the address is outside the memory or no
    /// multiple of 4, and leaves the memory as it was. See docs/MACHINE.md.
    #[inline]
    pub fn store32(&mut self, at: u32, v: u32) -> Result<(), BadAddress>
        ensures ok { OnOk result (store_word self.old at v ≡ Some self.new) }
        ensures refused { OnErr result (store_word self.old at v ≡ None) }
        ensures unchanged { OnErr result (self.new ≡ self.old) }
        ensures err { IsErr result ↔ is_word_address at ≡ false }
    {
        match place_of(at, 4) {
            Some(place) => {
                put_word(&mut self.bytes, place, v);
                Ok(())
            }
            None => Err(BadAddress),
        }
    }

    /// Puts the low 16 bits of a word at an address. `BadAddress` comes exactly where the address is outside the
    /// memory or no multiple of 2, and leaves the memory as it was. See docs/MACHINE.md.
    #[inline]
    pub fn store16(&mut self, at: u32, v: u32) -> Result<(), BadAddress>
        ensures ok { OnOk result (store_half self.old at v ≡ Some self.new) }
        ensures refused { OnErr result (store_half self.old at v ≡ None) }
        ensures unchanged { OnErr result (self.new ≡ self.old) }
        ensures err { IsErr result ↔ is_half_address at ≡ false }
    {
        match place_of(at, 2) {
            Some(place) => {
                put_half(&mut self.bytes, place, v);
                Ok(())
            }
            None => Err(BadAddress),
        }
    }

    /// Puts the low 8 bits of a word at an address. `BadAddress` comes exactly where the address is outside the
    /// memory, and leaves the memory as it was. See docs/MACHINE.md.
    #[inline]
    pub fn store8(&mut self, at: u32, v: u32) -> Result<(), BadAddress>
        ensures ok { OnOk result (store_byte self.old at v ≡ Some self.new) }
        ensures refused { OnErr result (store_byte self.old at v ≡ None) }
        ensures unchanged { OnErr result (self.new ≡ self.old) }
        ensures err { IsErr result ↔ is_byte_address at ≡ false }
    {
        match place_of(at, 1) {
            Some(place) => {
                put_byte(&mut self.bytes, place, v);
                Ok(())
            }
            None => Err(BadAddress),
        }
    }
}

/// Where in the memory an access of `size` bytes at an address begins: `None` where the address is outside the
/// memory or no multiple of `size`.
#[inline]
fn place_of(at: u32, size: u32) -> Option<usize>
    requires { 0 < size }
    ensures { MatchOption result (is_address_of size at ≡ false) (IsPlaceOf size at) }
{
    let offset = at.wrapping_sub(MEMORY_START);
    if offset < MEMORY_BYTES && at % size == 0 {
        Some(offset as usize)
    } else {
        None
    }
}

/// The word whose first byte stands at a place.
#[inline]
fn word_at(bytes: &[u8], place: usize) -> u32
    requires { place + 4 ≤ length bytes.now }
    ensures { result ≡ word_here (drop place bytes.now) }
{
    u32::from_le_bytes([
        bytes[place],
        bytes[place + 1],
        bytes[place + 2],
        bytes[place + 3],
    ])
}

/// The half whose first byte stands at a place, extended by its sign.
#[inline]
fn signed_half_at(bytes: &[u8], place: usize) -> u32
    requires { place + 2 ≤ length bytes.now }
    ensures { result ≡ sext (half_here (drop place bytes.now)) 16 }
{
    let half = i16::from_le_bytes([bytes[place], bytes[place + 1]]);
    i32::from(half).cast_unsigned()
}

/// The byte at a place.
#[inline]
fn byte_at(bytes: &[u8], place: usize) -> u32
    requires { place + 1 ≤ length bytes.now }
    ensures { result ≡ byte_here (drop place bytes.now) }
{
    u32::from(bytes[place])
}

/// Puts the four bytes of a word at a place, the least significant first.
#[inline]
fn put_word(bytes: &mut [u8], place: usize, v: u32)
    requires { place + 4 ≤ length bytes.old }
    ensures { bytes.new ≡ with_bytes_at bytes.old place (bytes_of_word v) }
{
    let [a, b, c, d] = v.to_le_bytes();
    bytes[place] = a;
    bytes[place + 1] = b;
    bytes[place + 2] = c;
    bytes[place + 3] = d;
}

/// Puts the two low bytes of a word at a place, the least significant first.
#[inline]
fn put_half(bytes: &mut [u8], place: usize, v: u32)
    requires { place + 2 ≤ length bytes.old }
    ensures { bytes.new ≡ with_bytes_at bytes.old place (bytes_of_half v) }
{
    let [a, b, _, _] = v.to_le_bytes();
    bytes[place] = a;
    bytes[place + 1] = b;
}

/// Puts the low byte of a word at a place.
#[inline]
fn put_byte(bytes: &mut [u8], place: usize, v: u32)
    requires { place + 1 ≤ length bytes.old }
    ensures { bytes.new ≡ with_bytes_at bytes.old place (low_byte v) }
{
    let [a, _, _, _] = v.to_le_bytes();
    bytes[place] = a;
}

/// Laws of the words of a memory, for one that reads them with addresses that rise by 4: the word at
/// 0x00010000 + 4 * k is the memory's word k; the words from word k on begin with it and go on with those from
/// word k + 1 on; and from word 16,384 on there are none.
pub fn words_in_order()
    ensures at { WordsInOrder }
    ensures next { NextWord }
    ensures end { NoWordsLeft }
{}
