ghost use Rattle.std.specs.Prelude.{◌≡◌, IfSome, length, option_map};
ghost use Rattle.xs_instructions.specs.Code.{code_at};
ghost use Rattle.xs_instructions.specs.Instr.{InRange};
ghost use Rattle.xs_instructions.specs.Image.{IsImage, entry_of, symbol_at, symbol_of_pair};

use crate::code::instr_at;
use crate::instr::Instr;
use crate::symbols::Symbols;
use std::marker::Model;
use xs_base::numbers::CODE_START;

/// What a source stands for (docs/ASSEMBLY.md): code, the bytes of its data, where the constants begin, and its
/// labels. The record `IsImage` says what every image keeps.
#[derive(Drop)]
pub struct Image {
    code: Vec<Instr>,
    bytes: Vec<u8>,
    cp_at: u32,
    symbols: Symbols,
}

impl Model for Image {
    ghost use Rattle.xs_instructions.specs.Image.{ImageRec, IsImage};

    ghost Value = { ImageRec };

    ghost view = { λ i. record { code = i.code.items; bytes = i.bytes.items; cp_at = i.cp_at; symbols = i.symbols.labels } };

    ghost invariant = { λ i. IsImage (record { code = i.code.items; bytes = i.bytes.items; cp_at = i.cp_at; symbols = i.symbols.labels }) };
}

impl Image {
    /// The image of these parts. It takes no memory.
    pub fn of(code: Vec<Instr>, bytes: Vec<u8>, cp_at: u32, symbols: Symbols) -> Image
        requires parts { IsImage (record { code = code.items; bytes = bytes.items; cp_at = cp_at; symbols = symbols.labels }) }
        ensures value { result ≡ record { code = code.items; bytes = bytes.items; cp_at = cp_at; symbols = symbols.labels } }
    {
        Image {
            code,
            bytes,
            cp_at,
            symbols,
        }
    }

    /// The instruction at an address, with its operands in range. None comes exactly where none stands there.
    pub fn at(&self, pc: u32) -> Option<Instr>
        ensures value { result ≡ code_at self.now.code pc }
        ensures in_range { IfSome result InRange }
    {
        instr_at(self.code(), pc)
    }

    /// The instructions in order, at most 16 384.
    pub fn code(&self) -> &[Instr]
        ensures value { result.now ≡ self.now.code }
        ensures image { IsImage self.now }
    {
        self.code.as_slice()
    }

    /// The bytes of the data, from address 0x0001_0000 on, at most 65 536.
    pub fn bytes(&self) -> &[u8]
        ensures value { result.now ≡ self.now.bytes }
        ensures image { IsImage self.now }
    {
        self.bytes.as_slice()
    }

    /// The address from which cp counts, a multiple of 4.
    pub fn cp_at(&self) -> u32
        ensures value { result ≡ self.now.cp_at }
        ensures image { IsImage self.now }
    {
        self.cp_at
    }

    /// How many labels there are.
    pub fn symbol_count(&self) -> usize
        ensures value { result ≡ length self.now.symbols }
        ensures image { IsImage self.now }
    {
        self.symbols.count()
    }

    /// The label with the number `k` in the order of definition, from 0, with its address. None comes exactly past
    /// the last.
    pub fn symbol(&self, k: usize) -> Option<(&str, u32)>
        ensures value { option_map symbol_of_pair result ≡ symbol_at k self.now.symbols }
    {
        self.symbols.at(k)
    }

    /// Where thread 0 begins: at the code label `main`, or at the first instruction's place where there is none.
    pub fn entry(&self) -> u32
        ensures value { result ≡ entry_of self.now }
    {
        match self.symbols.address(b"main") {
            Some(at) if at >= CODE_START => at,
            _ => CODE_START,
        }
    }
}
