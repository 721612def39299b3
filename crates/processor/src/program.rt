//! `Program`, what a core executes.
ghost use Rattle.std.specs.Prelude.{◌≡◌, ◌==◌, IfSome};
ghost use Rattle.xs_instructions.specs.Code.{code_at, is_code_place};
ghost use Rattle.xs_instructions.specs.Instr.{InRange};
ghost use Rattle.processor.specs.Program.{IsCode};

use std::marker::Model;
use xs_instructions::{Instr, instr_at};

/// The id of a node, the edition of its system, and the code that its core executes. Contracts see it as a `ProgramRec` of
/// `Rattle.processor.specs.Program`. See docs/MACHINE.md.
#[derive(Drop)]
pub struct Program {
    id: u16,
    edition: u8,
    code: Vec<Instr>,
}

impl Model for Program {
    ghost use Rattle.processor.specs.Program.{ProgramRec, IsCode};

    ghost Value = { ProgramRec };

    ghost view = { λ p. record { id = p.id; edition = p.edition; code = p.code.items } };

    ghost invariant = { λ p. IsCode p.code.items };
}

impl Program {
    /// The program of the node with this id, of a system of this edition, 1 or 2. It takes no memory.
    pub fn new(id: u16, edition: u8, code: Vec<Instr>) -> Program
        requires { IsCode code.items }
        ensures value { result ≡ record { id = id; edition = edition; code = code.items } }
    {
        Program { id, edition, code }
    }

    /// The id of the node.
    pub(crate) fn id(&self) -> u16
        ensures { result ≡ self.now.id }
    {
        self.id
    }

    /// Whether the threads of the core share a divider.
    #[inline]
    pub(crate) fn has_shared_divider(&self) -> bool
        ensures { result ≡ (self.now.edition == 2) }
    {
        self.edition == 2
    }

    /// The instruction at an address, or None exactly where none stands there.
    pub(crate) fn at(&self, pc: u32) -> Option<Instr>
        ensures value { result ≡ code_at self.now.code pc }
        ensures in_range { IfSome result InRange }
    {
        instr_at(&self.code, pc)
    }

    /// Whether an instruction stands at an address.
    pub(crate) fn stands_at(&self, pc: u32) -> bool
        ensures { result ≡ is_code_place self.now.code pc }
    {
        instr_at(&self.code, pc).is_some()
    }
}
