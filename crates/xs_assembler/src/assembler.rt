ghost use Rattle.std.specs.Prelude.{ℕ, ◌≡◌, ◌^◌, ◌<◌, ◌≤◌, List, None, Some, length, map, IfOk, IfErr, IfSome, IsErr, OnOk};
ghost use Rattle.std.specs.List.{AllByRecursion};
ghost use Rattle.xs_instructions.specs.Image.{ImageRec, IsImage, Symbol};
ghost use Rattle.xs_instructions.specs.SourceHash.{source_key};
ghost use Rattle.source_model.specs.declared.AsmKind.{AsmKind};
ghost use Rattle.source_model.specs.Statement.{Line as LineOf, line_of};
ghost use Rattle.source_model.specs.Layout.{Sofar as SomeLines, nothing_yet, whole_of, section_length, after_line, address_in};
ghost use Rattle.source_model.specs.Source.{assembled, Image as ImageOf, Fault as FaultAt, first_fault, fault_of_line, bytes_together, symbol_of};
ghost use Rattle.xs_assembler.specs.Assembles.{Assembles, FaultOf, FirstFault, GivesImage, GivesFault};
ghost use Rattle.xs_assembler.specs.Contents.{code_in, bytes_in, Resolves};
ghost use Rattle.xs_assembler.specs.Names.{IsFront};
ghost use Rattle.xs_assembler.specs.Output.{Grows, HasLine, HasLines};
ghost use Rattle.xs_assembler.specs.Passes.{source_lines, AreWithin, image_with};
ghost use Rattle.xs_assembler.specs.Before.{before_of, IsNoted};
ghost use Rattle.xs_assembler.specs.Sofar.{sofar_of};
ghost use Rattle.xs_assembler.specs.Wants.{MayWant, MayWantNames};

use crate::asm_error::AsmError;
use crate::before::{Before, Noted};
use crate::contents::{Resolved, resolve};
use crate::faults::{Findings, fault_of_line};
use crate::layouts::{section_length, section_start};
use crate::names::Names;
use crate::output::{Output, put_zeros};
use crate::sofar::Sofar;
use source_laws::sources_make_images;
use source_model::{AsmKind, Layout, Place, Section};
use std::alloc::{AllocError, Global};
use xs_instructions::{Image, Symbols};
use xs_text::Lines;

/// The image that a source of fewer than 2^32 bytes stands for. A fault comes exactly where it stands for none, with the
/// first faulty line and kind; want of memory may come in place of either. See docs/ASSEMBLY.md.
pub fn assemble(alloc: Global, text: &[u8]) -> Result<Image, AsmError>
    requires { length text.now < 2 ^ 32 }

    ensures exact { Assembles (assembled text.now) result }
    ensures ok { IfOk result (λ image. assembled text.now ≡ ImageOf image) }
    ensures fault { IfErr result (FaultOf (assembled text.now)) }
    ensures taken { (image : ImageRec) → assembled text.now ≡ ImageOf image → GivesImage image result }
    ensures refused { (line : ℕ) (kind : AsmKind) → assembled text.now ≡ FaultAt line kind → GivesFault line kind result }
{
    let whole = read_whole(alloc, text)?;
    let output = read_output(alloc, text, &whole)?;
    sources_make_images();
    Ok(make_image(whole, output)?)
}

// What all lines say together. It reads past faulty lines, since a fault of a line may hang on later ones.
fn read_whole(alloc: Global, text: &[u8]) -> Result<Sofar, AllocError>
    requires { length text.now < 2 ^ 32 }
    ensures value { IfOk result (λ whole. sofar_of whole ≡ whole_of (source_lines text.now)) }
    ensures within { IfOk result (λ whole. AreWithin (2 ^ 50) whole.layout) }
    ensures keyed { IfOk result (λ whole. whole.names.key ≡ source_key text.now) }
{
    let mut lines = Lines::new(text);
    let mut sofar = Sofar::of_source(alloc, text);
    while let Some(line) = lines.next_line() {
        note_line(alloc, &mut sofar, &text[line.from..line.to])?;
    }
    Ok(sofar)
}

// Notes a line. Memory may be wanting only where it has labels.
pub fn note_line(alloc: Global, sofar: &mut Sofar, bytes: &[u8]) -> Result<(), AllocError>
    requires before { AreWithin (2 ^ 50) sofar.old.layout }
    requires little { length bytes.now < 2 ^ 32 }
    ensures noted { OnOk result (sofar_of sofar.new ≡ after_line (sofar_of sofar.old) (line_of bytes.now)) }
    ensures keyed { sofar.new.names.key ≡ sofar.old.names.key }
    ensures memory { IsErr result → MayWantNames (line_of bytes.now) }
{
    sofar.note(alloc, bytes)
}

// Code and bytes of the lines up to the first fault.
fn read_output(alloc: Global, text: &[u8], whole: &Sofar) -> Result<Output, AsmError>
    requires small { length text.now < 2 ^ 32 }
    requires within { AreWithin (2 ^ 50) whole.now.layout }
    requires whole { sofar_of whole.now ≡ whole_of (source_lines text.now) }
    ensures ok { IfOk result (λ _. first_fault (sofar_of whole.now) nothing_yet 1 (source_lines text.now) ≡ None) }
    ensures output { IfOk result (HasLines (sofar_of whole.now) nothing_yet (source_lines text.now)) }
    ensures fault { IfErr result (FirstFault (first_fault (sofar_of whole.now) nothing_yet 1 (source_lines text.now))) }
{
    let mut lines = Lines::new(text);
    let mut before = Before::nothing();
    let mut output = Output::new(alloc);
    while let Some(line) = lines.next_line() {
        let bytes = &text[line.from..line.to];
        if let Some(kind) = put_line(alloc, whole, &mut before, bytes, &mut output)? {
            let line = line.number;
            return Err(AsmError::Fault { line, kind });
        }
    }
    Ok(output)
}

// Notes a line, and puts what it adds, unless it has a fault, whose first kind it gives. Memory may be wanting only where the
// line has no fault, or for the values of its statement.
fn put_line(
    alloc: Global,
    whole: &Sofar,
    before: &mut Before,
    bytes: &[u8],
    output: &mut Output,
) -> Result<Option<AsmKind>, AllocError>
    requires whole { AreWithin (2 ^ 50) whole.now.layout }
    requires before { AreWithin (2 ^ 50) before.old.layout }
    requires little { length bytes.now < 2 ^ 32 }
    requires front { IsFront (after_line (before_of whole.now.names.labels before.old) (line_of bytes.now)).labels whole.now.names.labels }
    ensures fault { IfOk result (λ kind. kind ≡ fault_of_line (sofar_of whole.now) (before_of whole.now.names.labels before.old) (line_of bytes.now)) }
    ensures noted { OnOk result (before_of whole.now.names.labels before.new ≡ after_line (before_of whole.now.names.labels before.old) (line_of bytes.now)) }
    ensures output { IfOk result (λ kind. kind ≡ None → HasLine (sofar_of whole.now) (before_of whole.now.names.labels before.old) (line_of bytes.now) output.old output.new) }
    ensures memory { IsErr result → MayWant (sofar_of whole.now) (before_of whole.now.names.labels before.old) (line_of bytes.now) }
{
    let layout = before.layout;
    let Some(noted) = before.note(&whole.names, bytes) else {
        return Ok(Some(AsmKind::BadByte));
    };
    let resolved = resolve(alloc, whole, noted.statement.says)?;
    if let Some(kind) = judge(layout.section, before.layout, noted, &resolved) {
        return Ok(Some(kind));
    }
    put_content(output, layout, &resolved)?;
    Ok(None)
}

// The first kind of which a line has a fault, by what was found of it.
fn judge(
    section: Section,
    after: Layout,
    noted: Noted,
    resolved: &Option<Resolved>,
) -> Option<AsmKind>
    requires within { AreWithin (2 ^ 51) after }
    ensures { (whole before : SomeLines) (line : LineOf) → before.layout.section ≡ section → IsNoted before line (Some noted.entry) → Resolves whole line.statement.says resolved.now → after ≡ (after_line before line).layout → result ≡ fault_of_line whole before line }
{
    fault_of_line(Findings {
        section,
        label_twice: noted.label_twice,
        label_reserved: noted.label_reserved,
        statement: noted.statement,
        out_of_range: resolved.is_none(),
        label_missing: label_missing(resolved),
        after,
    })
}

// Whether a statement without a value out of range names a label that no line defines.
fn label_missing(resolved: &Option<Resolved>) -> bool
    ensures { IfSome resolved.now (λ r. result ≡ r.label_missing) }
{
    match resolved {
        Some(resolved) => resolved.label_missing,
        None => false,
    }
}

// Puts what a line adds to the section in which it stands.
fn put_content(
    output: &mut Output,
    before: Layout,
    resolved: &Option<Resolved>,
) -> Result<(), AllocError>
    ensures { OnOk result (IfSome resolved.now (λ r. Grows before.section (code_in (section_length before before.section) r.content) (bytes_in (section_length before before.section) r.content) output.old output.new)) }
{
    match resolved {
        Some(resolved) => output.put(
            before.section,
            section_length(before, before.section),
            &resolved.content,
        ),
        None => Ok(()),
    }
}

// The image of what the lines give, where it keeps what every image keeps.
fn make_image(whole: Sofar, output: Output) -> Result<Image, AllocError>
    requires within { AreWithin (2 ^ 50) whole.layout }
    requires kept { IsImage (image_with (sofar_of whole) output) }
    ensures { IfOk result (λ image. image ≡ image_with (sofar_of whole) output) }
{
    let Sofar { layout, names } = whole;
    let Output {
        code,
        data_bytes,
        constant_bytes,
    } = output;
    let symbols = symbols(layout, names);
    let bytes = together(data_bytes, &constant_bytes)?;
    let cp_at = section_start(layout, Section::Constants) as u32;
    Ok(Image::of(code, bytes, cp_at, symbols))
}

// The names as symbols, each with the address of its place.
fn symbols(whole: Layout, names: Names) -> Symbols
    requires within { AreWithin (2 ^ 50) whole }
    requires addresses { AllByRecursion (λ (s : Symbol). s.1 < 2 ^ 32) (map (symbol_of whole) names.labels) }
    ensures labels { result.labels ≡ map (symbol_of whole) names.labels }
    ensures keyed { result.key ≡ names.key }
{
    let (mut symbols, places) = names.into_parts();
    for (k, place) in places.iter().enumerate() {
        symbols.set_address(k, address(whole, *place));
    }
    symbols
}

// The address of a place.
fn address(whole: Layout, place: Place) -> u32
    requires within { AreWithin (2 ^ 50) whole }
    requires small { address_in whole place < 2 ^ 32 }
    ensures { result ≡ address_in whole place }
{
    let start = section_start(whole, place.section);
    match place.section {
        Section::Text => (start + 4 * place.offset) as u32,
        Section::Data | Section::Constants => (start + place.offset) as u32,
    }
}

// The bytes of both sections: zeros come before the first constant, up to a word.
fn together(bytes: Vec<u8>, constants: &[u8]) -> Result<Vec<u8>, AllocError>
    ensures { IfOk result (λ all. all.items ≡ bytes_together bytes.items constants.now) }
{
    let mut bytes = bytes;
    if !constants.is_empty() {
        let more = (4 - bytes.len() % 4) % 4;
        put_zeros(&mut bytes, more)?;
        bytes.extend_from_slice(constants)?;
    }
    Ok(bytes)
}
