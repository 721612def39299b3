ghost use Rattle.std.specs.Prelude.{◌≡◌, ◌≢◌, ◌<◌, ◌≤◌, ◌^◌, ◌%◌, ℕ, [], ◌∷◌, true, false, None, IfOk, IsErr, IsSome, MatchOption, List, map, Option, option_map, option_and_then, if◌then◌else◌};
ghost use Rattle.xs_text.specs.Tokens.{tokens_of};
ghost use Rattle.source_model.specs.Layout.{address_in};
ghost use Rattle.source_model.specs.Operands.{operands_of, amount_of, amounts_of};
ghost use Rattle.xs_instructions.specs.Table.{values_among};
ghost use Rattle.xs_instructions.specs.declared.rows.Part.{Part};
ghost use Rattle.source_model.specs.Operands as model;
ghost use Rattle.source_model.specs.Values.{listed_values};
ghost use Rattle.source_model.specs.Statement.{Instruction, valued};
ghost use Rattle.source_model.specs.Source.{words_past, amount_value, target_value, offset_value, address_value, is_missing};
ghost use Rattle.xs_assembler.specs.Parts.{read_amount};
ghost use Rattle.xs_assembler.specs.Statements.{says_of};
ghost use Rattle.xs_assembler.specs.Sofar.{sofar_of};
ghost use Rattle.xs_assembler.specs.Contents.{Resolves, after_found, found_in, found_of};
ghost use Rattle.xs_assembler.specs.Wants.{HasValues};

use crate::amount::Amount;
use crate::layouts::section_start;
use crate::operands::{Operands, amount};
use crate::sofar::Sofar;
use crate::statement::Says;
use crate::values::{ValueList, next_value};
use source_model::{Layout, Place, Section, Width};
use std::alloc::{AllocError, Global};
use xs_instructions::{Instr, Part, Row};

// What a statement adds to its section, by what all lines say.
#[derive(Drop)]
pub enum Content {
    Nothing,
    Instruction(Instr),
    Values(Width, Vec<u32>),
    Zeros(u32),
    // Up to a multiple of the number.
    Padding(u32),
}

// The same, and whether the statement names a label that no line defines.
#[derive(Drop)]
pub struct Resolved {
    pub content: Content,
    pub label_missing: bool,
}

// The values of some amounts, and whether no line defines the name of one of them.
#[derive(Drop)]
pub struct Found {
    pub values: Vec<u32>,
    pub label_missing: bool,
}

// The lowest 32 bits.
fn low_word(n: u64) -> u32
    ensures { result ≡ n % 2 ^ 32 }
{
    (n % 4_294_967_296) as u32
}

// The address of a place as a word.
fn address_word(whole: Layout, place: Place) -> u32
    requires { whole.data_bytes < 2 ^ 62 }
    ensures { result ≡ address_in whole place % 4294967296 }
{
    let start = low_word(section_start(whole, place.section));
    let offset = low_word(place.offset);
    match place.section {
        Section::Text => start.wrapping_add(offset.wrapping_mul(4)),
        Section::Data | Section::Constants => start.wrapping_add(offset),
    }
}

// The address of a place, or None where it is past 64 bits.
fn address(whole: Layout, place: Place) -> Option<u64>
    requires { whole.data_bytes < 2 ^ 62 }
    ensures { MatchOption result (2 ^ 64 ≤ address_in whole place) (λ at. at ≡ address_in whole place) }
{
    let start = section_start(whole, place.section);
    match place.section {
        Section::Text => match place.offset.checked_mul(4) {
            Some(bytes) => start.checked_add(bytes),
            None => None,
        },
        Section::Data | Section::Constants => start.checked_add(place.offset),
    }
}

// How many words an address stands past a base: none below it, between words or too far.
fn words_past(base: u64, address: u64) -> Option<u32>
    ensures { result ≡ words_past base address }
{
    let bytes = address.checked_sub(base)?;
    if bytes % 4 == 0 && bytes / 4 <= 65_535 {
        Some((bytes / 4) as u32)
    } else {
        None
    }
}

// A place in the code as an instruction has it; a name that no line defines counts as the first.
fn target_value(place: Option<Place>) -> Option<u32>
    ensures { result ≡ target_value place }
{
    match place {
        None => Some(0),
        Some(place) => match place.section {
            Section::Text => Some(place.offset.min(16_384) as u32),
            Section::Data | Section::Constants => None,
        },
    }
}

// How many words a label stands past the start of a section.
fn offset_value(whole: Layout, base: Section, place: Option<Place>) -> Option<u32>
    requires { whole.data_bytes < 2 ^ 62 }
    ensures { result ≡ offset_value whole base place }
{
    match place {
        None => Some(0),
        Some(place) => match address(whole, place) {
            Some(at) => words_past(section_start(whole, base), at),
            // Such an address is past all of them.
            None => None,
        },
    }
}

// The value of an amount, None where it is out of range.
fn amount_value(whole: &Sofar, amount: Amount) -> Option<u32>
    requires { whole.now.layout.data_bytes < 2 ^ 62 }
    ensures { result ≡ amount_value (sofar_of whole.now) (read_amount amount.entry) }
{
    match amount {
        Amount::Known(value) => value,
        Amount::Target(name) => target_value(whole.names.find(name)),
        Amount::Address(name) => match whole.names.find(name) {
            None => Some(0),
            Some(place) => Some(address_word(whole.layout, place)),
        },
        Amount::Offset(base, name) => offset_value(whole.layout, base, whole.names.find(name)),
    }
}

// Whether no line defines the name of an amount.
fn is_missing(whole: &Sofar, amount: Amount) -> bool
    ensures { result ≡ is_missing (sofar_of whole.now) (read_amount amount.entry) }
{
    match amount {
        Amount::Known(_) => false,
        Amount::Target(name) | Amount::Address(name) | Amount::Offset(_, name) => {
            whole.names.find(name).is_none()
        }
    }
}

// No amounts. It takes no memory.
fn nothing_found(alloc: Global) -> Found
    ensures values { result.values.items ≡ [] }
    ensures label_missing { result.label_missing ≡ false }
{
    Found {
        values: Vec::new(alloc),
        label_missing: false,
    }
}

// Puts the value of one amount more, or answers false where it is out of range, and takes no memory then.
fn put_amount(found: &mut Found, whole: &Sofar, amount: Amount) -> Result<bool, AllocError>
    requires { whole.now.layout.data_bytes < 2 ^ 62 }
    ensures put { IfOk result (λ fits. (rest : List model.Amount) → after_found (sofar_of whole.now) found.old (read_amount amount.entry ∷ rest) ≡ (if fits then after_found (sofar_of whole.now) found.new rest else None)) }
    ensures memory { IsErr result → IsSome (amount_value (sofar_of whole.now) (read_amount amount.entry)) }
{
    let Some(value) = amount_value(whole, amount) else {
        return Ok(false);
    };
    if is_missing(whole, amount) {
        found.label_missing = true;
    }
    found.values.push(value)?;
    Ok(true)
}

// Puts the value of the next operand, which stands at a part of a row, if a value is written there. It answers false
// where the value is out of range.
fn put_operand(
    found: &mut Found,
    whole: &Sofar,
    part: Part,
    operands: &mut Operands,
) -> Result<bool, AllocError>
    requires { whole.now.layout.data_bytes < 2 ^ 62 }
    ensures put { IfOk result (λ fits. (parts : List Part) → after_found (sofar_of whole.now) found.old (values_among (part ∷ parts) (map amount_of operands.old)) ≡ (if fits then after_found (sofar_of whole.now) found.new (values_among parts (map amount_of operands.new)) else None)) }
    ensures memory { (parts : List Part) → IsErr result → values_among (part ∷ parts) (map amount_of operands.old) ≢ [] }
{
    let Some(operand) = operands.next_operand() else {
        return Ok(true);
    };
    if !part.takes_value() {
        return Ok(true);
    }
    put_amount(found, whole, amount(operand))
}

// The values of the operands that are values of the row, None where one is out of range. Memory may be wanting only where
// there are such operands.
fn row_values(
    alloc: Global,
    whole: &Sofar,
    row: Row,
    text: &[u8],
) -> Result<Option<Found>, AllocError>
    requires { whole.now.layout.data_bytes < 2 ^ 62 }
    ensures values { IfOk result (λ found. option_map found_of found ≡ found_in (sofar_of whole.now) (amounts_of row (operands_of (tokens_of text.now)))) }
    ensures memory { IsErr result → amounts_of row (operands_of (tokens_of text.now)) ≢ [] }
{
    let mut found = nothing_found(alloc);
    let mut operands = Operands::new(text);
    for part in row.parts() {
        if !put_operand(&mut found, whole, *part, &mut operands)? {
            return Ok(None);
        }
    }
    Ok(Some(found))
}

// The values of a list, None where one is out of range.
fn list_values(alloc: Global, whole: &Sofar, list: ValueList) -> Result<Option<Found>, AllocError>
    requires { whole.now.layout.data_bytes < 2 ^ 62 }
    ensures { IfOk result (λ found. option_map found_of found ≡ option_and_then (found_in (sofar_of whole.now)) (listed_values list.entry.width (tokens_of list.entry.text.now))) }
{
    let mut found = nothing_found(alloc);
    let mut left = Some(list.text);
    while let Some(text) = left {
        let Some((amount, rest)) = next_value(list.width, text) else {
            return Ok(None);
        };
        if !put_amount(&mut found, whole, amount)? {
            return Ok(None);
        }
        left = rest;
    }
    Ok(Some(found))
}

// The instruction of a row, or None where a value is out of range.
fn resolve_instruction(
    alloc: Global,
    whole: &Sofar,
    row: Row,
    text: &[u8],
) -> Result<Option<Resolved>, AllocError>
    requires { whole.now.layout.data_bytes < 2 ^ 62 }
    ensures instruction { IfOk result (Resolves (sofar_of whole.now) (Instruction row (amounts_of row (operands_of (tokens_of text.now))))) }
    ensures memory { IsErr result → amounts_of row (operands_of (tokens_of text.now)) ≢ [] }
{
    let Some(found) = row_values(alloc, whole, row, text)? else {
        return Ok(None);
    };
    match row.build(&found.values) {
        Some(instruction) => Ok(Some(Resolved {
            content: Content::Instruction(instruction),
            label_missing: found.label_missing,
        })),
        None => Ok(None),
    }
}

// The values of a directive, or None where one is out of range.
fn resolve_values(
    alloc: Global,
    whole: &Sofar,
    list: ValueList,
) -> Result<Option<Resolved>, AllocError>
    requires { whole.now.layout.data_bytes < 2 ^ 62 }
    ensures { IfOk result (Resolves (sofar_of whole.now) (valued list.entry.width (listed_values list.entry.width (tokens_of list.entry.text.now)))) }
{
    match list_values(alloc, whole, list)? {
        Some(found) => Ok(Some(Resolved {
            content: Content::Values(list.width, found.values),
            label_missing: found.label_missing,
        })),
        None => Ok(None),
    }
}

// A content without names.
fn plain(content: Content) -> Resolved
    ensures content { result.content ≡ content }
    ensures label_missing { result.label_missing ≡ false }
{
    Resolved {
        content,
        label_missing: false,
    }
}

// What a statement adds, or None where a value is out of range. Memory may be wanting only for the values of the statement.
pub fn resolve(alloc: Global, whole: &Sofar, says: Says) -> Result<Option<Resolved>, AllocError>
    requires { whole.now.layout.data_bytes < 2 ^ 62 }
    ensures resolved { IfOk result (Resolves (sofar_of whole.now) (says_of says.entry)) }
    ensures memory { IsErr result → HasValues (says_of says.entry) }
{
    match says {
        Says::NoEffect | Says::Unknown | Says::Misshapen => Ok(Some(plain(Content::Nothing))),
        Says::Instruction(row, text) => resolve_instruction(alloc, whole, row, text),
        Says::Values(list) => resolve_values(alloc, whole, list),
        Says::Zeros(Some(count)) => Ok(Some(plain(Content::Zeros(count)))),
        Says::Align(Some(unit)) => Ok(Some(plain(Content::Padding(unit)))),
        Says::Zeros(None) | Says::Align(None) => Ok(None),
    }
}
