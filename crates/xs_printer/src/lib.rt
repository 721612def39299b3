//! The canonical text of an image. See docs/OUTPUT.md.
#![tactic(auto)]

ghost use Rattle.std.specs.Prelude.{◌≡◌, IfOk};
ghost use Rattle.source_model.specs.Canonical.{canonical};
ghost use Rattle.source_laws.specs.TextStandsFor.{TextStandsFor};

mod labels;
mod printer;
mod sections;
mod statement;

use labels::first_labels;
pub use printer::Printer;
use sections::{append_code, append_constants, append_data};
use source_laws::canonical_is_read_back;
use std::alloc::{AllocError, Global};
use xs_base::Text;
use xs_instructions::Image;

/// The canonical text of an image: source lines that stand for this image. The error is want of memory. See
/// docs/OUTPUT.md.
pub fn print_image(alloc: Global, image: &Image) -> Result<Text, AllocError>
    ensures text { IfOk result (λ text. text ≡ canonical image.now) }
    ensures reads_back { IfOk result (λ text. TextStandsFor text image.now) }
{
    canonical_is_read_back();
    let firsts = first_labels(alloc, image)?;
    let bytes = image.bytes();
    let mut out = Text::new(alloc);
    let first_of_data = append_code(&mut out, image, &firsts)?;
    out.append(b".data\n")?;
    let first_of_constants = append_data(&mut out, image, bytes, first_of_data)?;
    out.append(b".cp\n")?;
    append_constants(&mut out, image, bytes, first_of_constants)?;
    Ok(out)
}
