ghost use Rattle.std.specs.Prelude.{◌≡◌, ◌+◌, ◌<◌, ◌^◌, List, is_some, take};
ghost use Rattle.std.specs.List.{list_any};
ghost use Rattle.xs_text.specs.Tokens.{tokens_of};
ghost use Rattle.xs_instructions.specs.Image.{is_reserved};
ghost use Rattle.source_model.specs.Statement.{labels_first, after_labels, line_of};
ghost use Rattle.source_model.specs.Layout.{Label, nothing_yet, section_length, added, after_line, define, define_all, here, place_of};
ghost use Rattle.source_model.specs.Source.{defines_twice};
ghost use Rattle.xs_assembler.specs.Names.{IsFront};
ghost use Rattle.xs_assembler.specs.Before.{before_of, IsNoted};

use crate::layouts::{moved, no_lines};
use crate::names::Names;
use crate::statement::{Statement, read_statement};
use crate::tokens::first_label;
use source_model::Layout;
use xs_instructions::is_reserved;
use xs_text::all_allowed;

// What the lines before one say together, where the names of all lines are known: their layout, and how many of the names
// they define. All names stand in the order of their definition, so those of the lines before are the first.
#[derive(Clone, Copy)]
pub struct Before {
    pub layout: Layout,
    pub labels: usize,
}

// What a line without a bad byte says, and what was found of its labels.
#[derive(Clone, Copy)]
pub struct Noted<'a> {
    // Whether one was defined before.
    pub label_twice: bool,
    // Whether one is a reserved name.
    pub label_reserved: bool,
    pub statement: Statement<'a>,
}

// What was found of the labels of a line, and what comes after them.
#[derive(Clone, Copy)]
struct Passed<'a> {
    twice: bool,
    reserved: bool,
    rest: &'a [u8],
}

impl Before {
    // No lines.
    pub fn nothing() -> Before
        ensures { (labels : List Label) → before_of labels result ≡ nothing_yet }
    {
        Before {
            layout: no_lines(),
            labels: 0,
        }
    }

    // Notes one line more, and says what it found of it; None is a line with a bad byte.
    pub fn note<'a>(&mut self, names: &Names, bytes: &'a [u8]) -> Option<Noted<'a>>
        requires fits { section_length self.old.layout self.old.layout.section + added (section_length self.old.layout self.old.layout.section) (line_of bytes.now).statement.says < 2 ^ 64 }
        requires front { IsFront (after_line (before_of names.now.labels self.old) (line_of bytes.now)).labels names.now.labels }
        ensures found { IsNoted (before_of names.now.labels self.old) (line_of bytes.now) result }
        ensures noted { before_of names.now.labels self.new ≡ after_line (before_of names.now.labels self.old) (line_of bytes.now) }
    {
        if !all_allowed(bytes) {
            return None;
        }
        let labels = self.pass_labels(names, bytes);
        let statement = read_statement(labels.rest);
        self.layout = moved(self.layout, &statement);
        Some(Noted {
            label_twice: labels.twice,
            label_reserved: labels.reserved,
            statement,
        })
    }

    // Counts the labels at the front of a line that stands here.
    fn pass_labels<'a>(&mut self, names: &Names, line: &'a [u8]) -> Passed<'a>
        requires { IsFront (define_all (here self.old.layout) (labels_first (tokens_of line.now)) (take self.old.labels names.now.labels)) names.now.labels }
        ensures twice { result.twice ≡ defines_twice (here self.old.layout) (take self.old.labels names.now.labels) (labels_first (tokens_of line.now)) }
        ensures reserved { result.reserved ≡ list_any is_reserved (labels_first (tokens_of line.now)) }
        ensures rest { tokens_of result.rest.now ≡ after_labels (tokens_of line.now) }
        ensures labels { take self.new.labels names.now.labels ≡ define_all (here self.old.layout) (labels_first (tokens_of line.now)) (take self.old.labels names.now.labels) }
        ensures layout { self.new.layout ≡ self.old.layout }
    {
        let mut twice = false;
        let mut reserved = false;
        let mut rest = line;
        while let Some((name, after)) = first_label(rest) {
            twice |= self.pass_label(names, name);
            reserved |= is_reserved(name);
            rest = after;
        }
        Passed {
            twice,
            reserved,
            rest,
        }
    }

    // Counts a label that stands here, unless it was defined before, and says whether it was.
    fn pass_label(&mut self, names: &Names, name: &[u8]) -> bool
        requires { IsFront (define (here self.old.layout) name.now (take self.old.labels names.now.labels)) names.now.labels }
        ensures twice { result ≡ is_some (place_of (take self.old.labels names.now.labels) name.now) }
        ensures labels { take self.new.labels names.now.labels ≡ define (here self.old.layout) name.now (take self.old.labels names.now.labels) }
        ensures layout { self.new.layout ≡ self.old.layout }
    {
        if names.is_among(self.labels, name) {
            return true;
        }
        if !is_reserved(name) {
            let all = names.count();
            prove!(self.labels < all);
            self.labels += 1;
        }
        false
    }
}
