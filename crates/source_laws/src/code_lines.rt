//! The line of the source that each instruction of an image comes from. See docs/ASSEMBLY.md.
ghost use Rattle.std.specs.Prelude.{ℕ, ◌≡◌, ◌<◌, List, length, slice_index};
ghost use Rattle.xs_instructions.specs.Image.{ImageRec};
ghost use Rattle.source_model.specs.CodeLines.{code_lines};
ghost use Rattle.source_model.specs.Source.{Image, assembled_lines};
ghost use Rattle.source_laws.specs.CodeLines.{ComesFromLine};

/// In a source that stands for an image, each instruction has a line, and is one of that line's own code, after the code of the
/// lines before it. So no instruction is named by a line that did not give it, however many lines stand between, and all
/// that a line aligns the code with is that line's.
pub fn lines_give_their_code()
    ensures as_many { (ls : List (List ℕ)) (image : ImageRec) → assembled_lines ls ≡ Image image → length (code_lines ls) ≡ length image.code }
    ensures own { (ls : List (List ℕ)) (image : ImageRec) → assembled_lines ls ≡ Image image → (place : ℕ) → place < length image.code → ComesFromLine ls image place (slice_index (code_lines ls) place) }
{}
