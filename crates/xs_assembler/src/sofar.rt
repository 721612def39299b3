ghost use Rattle.std.specs.Prelude.{◌≡◌, ◌≢◌, ◌+◌, ◌<◌, ◌^◌, [], OnOk, IfOk, IsErr};
ghost use Rattle.xs_text.specs.Tokens.{tokens_of};
ghost use Rattle.xs_instructions.specs.SourceHash.{source_key};
ghost use Rattle.source_model.specs.Statement.{labels_first, after_labels, line_of};
ghost use Rattle.source_model.specs.Layout.{nothing_yet, section_length, added, after_line, define_all};
ghost use Rattle.xs_assembler.specs.Sofar.{sofar_of};
ghost use Rattle.xs_assembler.specs.Wants.{MayWantNames};

use crate::layouts::{here, moved, no_lines};
use crate::names::Names;
use crate::statement::read_statement;
use crate::tokens::first_label;
use source_model::{Layout, Place};
use std::alloc::{AllocError, Global};
use xs_text::all_allowed;

// What some lines say together.
#[derive(Drop)]
pub struct Sofar {
    pub layout: Layout,
    pub names: Names,
}

impl Sofar {
    // No lines of this source. It takes no memory.
    pub fn of_source(alloc: Global, source: &[u8]) -> Sofar
        ensures nothing { sofar_of result ≡ nothing_yet }
        ensures keyed { result.names.key ≡ source_key source.now }
    {
        Sofar {
            layout: no_lines(),
            names: Names::of_source(alloc, source),
        }
    }

    // Notes one line more. Memory may be wanting only where it has labels.
    pub fn note(&mut self, alloc: Global, bytes: &[u8]) -> Result<(), AllocError>
        requires { section_length self.old.layout self.old.layout.section + added (section_length self.old.layout self.old.layout.section) (line_of bytes.now).statement.says < 2 ^ 64 }
        ensures noted { OnOk result (sofar_of self.new ≡ after_line (sofar_of self.old) (line_of bytes.now)) }
        ensures keyed { self.new.names.key ≡ self.old.names.key }
        ensures memory { IsErr result → MayWantNames (line_of bytes.now) }
    {
        if !all_allowed(bytes) {
            return Ok(());
        }
        let rest = define_all(alloc, &mut self.names, here(self.layout), bytes)?;
        self.layout = moved(self.layout, &read_statement(rest));
        Ok(())
    }
}

// Defines the labels at the front of a line at the place, and gives what comes after them.
fn define_all<'a>(
    alloc: Global,
    names: &mut Names,
    place: Place,
    line: &'a [u8],
) -> Result<&'a [u8], AllocError>
    ensures rest { IfOk result (λ rest. tokens_of rest.now ≡ after_labels (tokens_of line.now)) }
    ensures defined { OnOk result (names.new.labels ≡ define_all place (labels_first (tokens_of line.now)) names.old.labels) }
    ensures keyed { names.new.key ≡ names.old.key }
    ensures memory { IsErr result → labels_first (tokens_of line.now) ≢ [] }
{
    let mut rest = line;
    while let Some((name, after)) = first_label(rest) {
        names.define(alloc, name, place)?;
        rest = after;
    }
    Ok(rest)
}
