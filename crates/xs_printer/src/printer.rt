//! Instructions of an image, each by itself.
ghost use Rattle.std.specs.Prelude.{◌≡◌, ◌++◌, slice_get, IfOk, OnOk};
ghost use Rattle.xs_instructions.specs.Code.{code_at};
ghost use Rattle.source_model.specs.Canonical.{instruction_text};

use crate::labels::first_labels;
use crate::sections::append_text;
use std::alloc::{AllocError, Global};
use std::marker::Model;
use xs_base::Text;
use xs_base::numbers::CODE_START;
use xs_instructions::Image;

/// Writes instructions of an image as its canonical text has them, without blanks before them and without a line's end. It
/// stands for the image. See docs/OUTPUT.md.
#[derive(Drop)]
pub struct Printer<'a> {
    image: &'a Image,
    // The number of the first label at each place of the code or after it, and at the code's end.
    firsts: Vec<usize>,
}

impl<'a> Model for Printer<'a> {
    ghost use Rattle.std.specs.Prelude.{◌+◌, length};
    ghost use Rattle.xs_instructions.specs.Image.{ImageRec};
    ghost use Rattle.xs_printer.specs.Firsts.{AreFirstLabels};

    ghost Value = { ImageRec };

    ghost view = { λ p. p.image.now };

    ghost invariant = { λ p. AreFirstLabels p.image.now.symbols (length p.image.now.code + 1) p.firsts.items };
}

impl<'a> Printer<'a> {
    /// One for the image. It takes as long as the image's code and labels are, and the error is want of memory.
    pub fn new(alloc: Global, image: &'a Image) -> Result<Printer<'a>, AllocError>
        ensures { IfOk result (λ printer. printer ≡ image.now) }
    {
        let firsts = first_labels(alloc, image)?;
        Ok(Printer { image, firsts })
    }

    /// Puts the text of the instruction at a place of the code, counted from 0, and nothing where none stands there. The
    /// error is want of memory.
    pub fn append_place(&self, out: &mut Text, place: usize) -> Result<(), AllocError>
        ensures { OnOk result (out.new ≡ out.old ++ instruction_text self.now.symbols (slice_get self.now.code place)) }
    {
        match self.image.code().get(place) {
            Some(ins) => append_text(out, self.image, &self.firsts, *ins),
            None => Ok(()),
        }
    }

    /// The same of the instruction at an address: code begins at 0x0004_0000, and each instruction takes 4 bytes.
    pub fn append_at(&self, out: &mut Text, pc: u32) -> Result<(), AllocError>
        ensures { OnOk result (out.new ≡ out.old ++ instruction_text self.now.symbols (code_at self.now.code pc)) }
    {
        if pc < CODE_START || pc % 4 != 0 {
            return Ok(());
        }
        self.append_place(out, ((pc - CODE_START) / 4) as usize)
    }
}
