ghost use Rattle.std.specs.Prelude.{◌≡◌, IfSome};
ghost use Rattle.std.specs.List.{AllByRecursion};
ghost use Rattle.xs_instructions.specs.Code.{code_at};
ghost use Rattle.xs_instructions.specs.Instr.{InRange};

use crate::instr::Instr;
use xs_base::numbers::CODE_START;

/// At most so many instructions stand in an image.
pub const MOST_CODE: usize = 16_384;

/// The instruction at an address, or None exactly where none stands there: the instruction at place k has the
/// address 0x0004_0000 + 4k. See docs/MACHINE.md.
pub fn instr_at(code: &[Instr], pc: u32) -> Option<Instr>
    ensures value { result ≡ code_at code.now pc }
    ensures in_range { AllByRecursion InRange code.now → IfSome result InRange }
{
    let offset = pc.checked_sub(CODE_START)?;
    if offset % 4 != 0 {
        return None;
    }
    code.get((offset / 4) as usize).copied()
}
