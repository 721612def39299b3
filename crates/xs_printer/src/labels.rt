//! The labels of an image, walked beside its places.
ghost use Rattle.std.specs.Prelude.{ℕ, ◌≡◌, ◌+◌, ◌≤◌, ◌++◌, ◌<◌, Some, length, drop, IfOk, OnOk};
ghost use Rattle.xs_instructions.specs.Image.{IsImage, symbol_at, symbol_of_pair};
ghost use Rattle.source_model.specs.Canonical.{labels_at, lines_text};
ghost use Rattle.source_laws.specs.LabelOrder.{past_address, IsNext};
ghost use Rattle.xs_printer.specs.Firsts.{AreFirstLabels, IsFirstFrom};

use source_laws::labels_stand_in_order;
use std::alloc::{AllocError, Global};
use xs_base::Text;
use xs_instructions::Image;

/// Label k and its address.
pub(crate) fn label(image: &Image, k: usize) -> (&str, u32)
    requires { k < length image.now.symbols }
    ensures { symbol_at k image.now.symbols ≡ Some (symbol_of_pair result) }
{
    image.symbol(k).unwrap()
}

// The number of the first label from `from` on that has another address.
fn past_labels(image: &Image, from: usize, at: u32) -> usize
    requires { from ≤ length image.now.symbols }
    ensures within { result ≤ length image.now.symbols }
    ensures rest { drop result image.now.symbols ≡ past_address at (drop from image.now.symbols) }
{
    let count = image.symbol_count();
    for k in from..count {
        let (_, address) = label(image, k);
        if address != at {
            return k;
        }
    }
    count
}

/// Puts the lines of the labels of an address, the first of which has the number `from`. It gives the number of the
/// first label after them.
pub(crate) fn append_labels(
    out: &mut Text,
    image: &Image,
    from: usize,
    at: u32,
) -> Result<usize, AllocError>
    requires image { IsImage image.now }
    requires first { IsFirstFrom image.now.symbols at from }
    ensures lines { OnOk result (out.new ≡ out.old ++ lines_text image.now.symbols (labels_at image.now.symbols at)) }
    ensures next { IfOk result (λ k. (next : ℕ) → IsNext at next image.now.symbols → IsFirstFrom image.now.symbols next k) }
{
    labels_stand_in_order();
    let count = image.symbol_count();
    for k in from..count {
        let (name, address) = label(image, k);
        if address != at {
            return Ok(k);
        }
        out.append(name.as_bytes())?;
        out.append(b":\n")?;
    }
    Ok(count)
}

/// The number of the first label at each place of the code or after it, and at the code's end.
pub(crate) fn first_labels(alloc: Global, image: &Image) -> Result<Vec<usize>, AllocError>
    ensures { IfOk result (λ firsts. AreFirstLabels image.now.symbols (length image.now.code + 1) firsts.items) }
{
    labels_stand_in_order();
    let places = image.code().len() + 1;
    let mut firsts = Vec::new(alloc);
    let mut next = 0;
    for place in 0..places {
        firsts.push(next)?;
        next = past_labels(image, next, 0x0004_0000 + 4 * place as u32);
    }
    Ok(firsts)
}
