//! Laws of what a source text stands for: they hold for every text and every image. See docs/ASSEMBLY.md.
#![tactic(auto)]

ghost use Rattle.std.specs.Prelude.{ℕ, ◌≡◌, ◌<◌, None, not, is_none, option_map, List, map};
ghost use Rattle.std.specs.List.{AllByRecursion, list_any};
ghost use Rattle.xs_text.specs.Lines.{lines_of};
ghost use Rattle.xs_instructions.specs.Image.{ImageRec, IsImage, address_of};
ghost use Rattle.source_model.specs.declared.AsmKind.{AsmKind};
ghost use Rattle.source_model.specs.Canonical.{canonical};
ghost use Rattle.source_model.specs.Statement.{Line, line_of};
ghost use Rattle.source_model.specs.Layout.{nothing_yet, whole_of, place_of, address_in};
ghost use Rattle.source_model.specs.Source.{first_fault, image_of, Image, Fault, assembled};
ghost use Rattle.source_laws.specs.Faults.{IsFirstSourceFault, HasNoSourceFault, image_of_text};
ghost use Rattle.source_laws.specs.LabelPlaces.{has_label, layout_of_lines, label_place};
ghost use Rattle.source_laws.specs.TextStandsFor.{TextStandsFor};

mod code_lines;
mod written;

pub use code_lines::lines_give_their_code;
pub use written::{labels_stand_in_order, labels_stand_in_their_parts};
use xs_instructions::written_is_read;

/// A source is refused exactly where a line has a fault: for the least such line, and the first kind in the order of
/// which that line has a fault. Else it stands for an image. See docs/ASSEMBLY.md.
pub fn first_fault_decides()
    ensures refused { (text : List ℕ) (line : ℕ) (kind : AsmKind) → assembled text ≡ Fault line kind → IsFirstSourceFault text line kind }
    ensures faulty { (text : List ℕ) (line : ℕ) (kind : AsmKind) → IsFirstSourceFault text line kind → assembled text ≡ Fault line kind }
    ensures taken { (text : List ℕ) (image : ImageRec) → assembled text ≡ Image image → HasNoSourceFault text }
    ensures faultless { (text : List ℕ) → HasNoSourceFault text → assembled text ≡ Image (image_of_text text) }
{}

/// A label stands where the lines before the first line that has it end: in the section that they end in, as far into it
/// as they fill it. A name that no line has as a label has no place. So it is in every source; in one that
/// stands for an image, the label's address is that of this place, and a name has none exactly where it has no place.
/// See docs/ASSEMBLY.md.
pub fn labels_stand_at_their_first_line()
    ensures place { (lines : List Line) (name : List ℕ) → place_of (whole_of lines).labels name ≡ label_place lines name }
    ensures nowhere { (lines : List Line) (name : List ℕ) → is_none (place_of (whole_of lines).labels name) ≡ not (list_any (has_label name) lines) }
    ensures address { (text : List ℕ) (image : ImageRec) (name : List ℕ) → assembled text ≡ Image image → let lines = map line_of (lines_of text) in
        address_of image.symbols name ≡ option_map (address_in (layout_of_lines lines)) (label_place lines name) }
{}

/// What a source without faults stands for keeps what every image keeps: of a text, and of the lines of a text. See
/// docs/ASSEMBLY.md.
pub fn sources_make_images()
    ensures of_text { (text : List ℕ) (image : ImageRec) → assembled text ≡ Image image → IsImage image }
    ensures of_lines { (ls : List (List ℕ)) → first_fault (whole_of (map line_of ls)) nothing_yet 1 (map line_of ls) ≡ None → IsImage (image_of (whole_of (map line_of ls)) (map line_of ls)) }
{}

/// The canonical text of an image is read as this image, whatever the image. See docs/OUTPUT.md.
pub fn canonical_is_read_back()
    ensures { (image : ImageRec) → IsImage image → AllByRecursion (λ b. b < 256) image.bytes → TextStandsFor (canonical image) image }
{
    written_is_read();
}
