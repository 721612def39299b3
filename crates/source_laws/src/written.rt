//! Laws of an image's labels, as whoever writes its text walks them. See docs/OUTPUT.md.
ghost use Rattle.std.specs.Prelude.{ℕ, ◌≡◌, ◌+◌, ◌<◌, ◌≤◌, List, length, filter, option_to_list, IsTrue};
ghost use Rattle.xs_instructions.specs.declared.instr.Instr.{Instr};
ghost use Rattle.xs_instructions.specs.Rows.{parts_of};
ghost use Rattle.xs_instructions.specs.Operands.{row_of, values_of};
ghost use Rattle.xs_instructions.specs.Instr.{InRange, AreInRange, label_of, takes_value};
ghost use Rattle.xs_instructions.specs.Code.{code_start, place_address};
ghost use Rattle.xs_instructions.specs.Image.{ImageRec, IsImage, Symbol, AreInOrder, has_symbol_at, data_start};
ghost use Rattle.source_laws.specs.LabelOrder.{first_at, past_address, symbols_at, symbols_from, IsNext};
ghost use Rattle.source_laws.specs.LabelValues.{label_values};

/// The symbols of an image stand in the order of its places: of those from an address on, the ones at it stand first and
/// those from the next place on stand after them, from the code's first place over the code's end, the bytes and `cp_at`.
pub fn labels_stand_in_order()
    ensures here { (at : ℕ) (symbols : List Symbol) → AreInOrder symbols → first_at at (symbols_from at symbols) ≡ symbols_at at symbols }
    ensures later { (at next : ℕ) (symbols : List Symbol) → AreInOrder symbols → IsNext at next symbols → past_address at (symbols_from at symbols) ≡ symbols_from next symbols }
    ensures first_place { (image : ImageRec) → IsImage image → symbols_from (place_address 0) image.symbols ≡ image.symbols }
    ensures next_place { (image : ImageRec) (place : ℕ) → IsImage image → IsNext (place_address place) (place_address (place + 1)) image.symbols }
    ensures data { (image : ImageRec) → IsImage image → IsNext (place_address (length image.code)) data_start image.symbols }
    ensures next_byte { (at : ℕ) (symbols : List Symbol) → at + 1 < code_start → IsNext at (at + 1) symbols }
    ensures constants { (image : ImageRec) → IsImage image → data_start + length image.bytes < image.cp_at → IsNext (data_start + length image.bytes) image.cp_at image.symbols }
{}

/// What stands at an instruction's part for a label is its label, its other values are in their parts' ranges, and a place
/// with a label is one of the code or its end.
pub fn labels_stand_in_their_parts()
    ensures labels { (ins : Instr) → label_values (parts_of (row_of ins)) (values_of ins) ≡ option_to_list (label_of ins) }
    ensures values { (ins : Instr) → InRange ins → AreInRange (filter takes_value (parts_of (row_of ins))) (values_of ins) }
    ensures within { (image : ImageRec) (place : ℕ) → IsImage image → IsTrue (has_symbol_at image.symbols (place_address place)) → place ≤ length image.code }
{}
