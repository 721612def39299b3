ghost use Rattle.std.specs.Prelude.{◌≡◌, ◌≤◌, ℕ, true, false, ◌==◌, ◌||◌, ◌&&◌, nat_lt, None, [], length, option_map, IsErr, List, OnOk};
ghost use Rattle.std.specs.List.{list_any, prefix_len};
ghost use Rattle.xs_text.specs.Lines.{lines_of};
ghost use Rattle.xs_text.specs.Words.{words_of_line};
ghost use Rattle.system_model.specs.Frame.{Given, Form, End, says, nothing_given, is_empty, has_node, has_end_in, has_end_out, has_link_end, has_link_ends, is_same_end, is_same_kind, has_section, given_with, without_source};
ghost use Rattle.system_model.specs.System.{edition_given, section_lines};
ghost use Rattle.system_text.specs.Judged.{Judges, IsFormless, IsFormOf, IsPlaying, NamesNoNode, said_by, later_fault, with_section};
ghost use Rattle.system_text.specs.Ranges.{IsShortSource};
ghost use Rattle.system_text.specs.Wants.{IsKept};

use crate::end_numbers::stands_twice;
use crate::frame_lines::frame_line;
use crate::step_lines::step_line;
use crate::wires::{count_coming, count_leaving, is_wire_end, is_wired, width_of};
use crate::words::{edition_of_header, is_empty, is_end};
use std::alloc::{AllocError, Global};
use std::marker::Model;
use system_model::{
    BitLine, EndName, FrameLine, GivenNode, LinkLine, NodeLine, PlayLine, SectionKind, SysKind,
    WireLine,
};
use xs_text::all_allowed;

// A system has at most so many nodes, so many links and so many wires.
const MOST_NODES: usize = 16;

const MOST_LINKS: usize = 48;

const MOST_WIRES: usize = 32;

// What a line of the frame without a fault says.
#[derive(Drop)]
pub enum Said {
    // It ends the section `play`.
    End,
    // It has no words.
    Blank,
    // It is the first line with words, and gives the edition.
    Header(u8),
    Form(FrameLine),
}

// A section that has ended: what it holds, the number of the line that begins it, and its part of the text, which is empty
// where the frame has read its lines.
#[derive(Clone, Copy)]
pub struct SectionText<'a> {
    pub kind: SectionKind,
    pub line: u32,
    pub text: &'a [u8],
}

// What the lines so far have given: the edition, the nodes by ascending number, and the rest in the order of the lines; and the
// number of the line that begins the section `play`, where it has begun and not ended. No other section is being read.
#[derive(Drop)]
pub struct Frame<'a> {
    edition: Option<u8>,
    nodes: Vec<GivenNode>,
    links: Vec<LinkLine>,
    bits: Vec<BitLine>,
    wires: Vec<WireLine>,
    steps: Vec<PlayLine>,
    sections: Vec<SectionText<'a>>,
    playing: Option<u32>,
}

impl<'a> Model for Frame<'a> {
    ghost use Rattle.std.specs.Prelude.{map, option_map};
    ghost use Rattle.std.specs.List.{AllByRecursion};
    ghost use Rattle.xs_text.specs.Lines.{lines_of};
    ghost use Rattle.system_model.specs.Frame.{Given};
    ghost use Rattle.system_text.specs.Ranges.{IsShortSource};
    ghost use Rattle.system_text.specs.Sections.{play_from};

    ghost Value = { Given };

    ghost view = { λ f. record { edition = f.edition; nodes = f.nodes.items; links = f.links.items; bits = f.bits.items; wires = f.wires.items; steps = f.steps.items; sections = map (λ s. record { kind = s.kind; line = s.line; lines = lines_of s.text.now }) f.sections.items; reading = option_map play_from f.playing } };

    ghost invariant = { λ f. AllByRecursion (λ s. IsShortSource s.text.now) f.sections.items };
}

impl<'a> Frame<'a> {
    // Before the first line.
    pub fn new(alloc: Global) -> Frame<'a>
        ensures { result ≡ nothing_given }
    {
        Frame {
            edition: None,
            nodes: Vec::new(alloc),
            links: Vec::new(alloc),
            bits: Vec::new(alloc),
            wires: Vec::new(alloc),
            steps: Vec::new(alloc),
            sections: Vec::new(alloc),
            playing: None,
        }
    }

    // What a line says, or its fault.
    pub fn judge(&self, line: &[u8]) -> Result<Said, SysKind>
        ensures { Judges self.now line.now result }
    {
        match self.playing {
            Some(_first) => self.judge_in_play(line),
            None => self.judge_outside(line),
        }
    }

    // The same outside of the section `play`.
    fn judge_outside(&self, line: &[u8]) -> Result<Said, SysKind>
        requires { self.now.reading ≡ None }
        ensures { Judges self.now line.now result }
    {
        if is_empty(line) {
            return judge_bytes(line, Said::Blank);
        }
        match self.edition {
            Some(edition) => self.judge_form(line, frame_line(edition, line)),
            None => judge_first(line),
        }
    }

    // The same in that section.
    fn judge_in_play(&self, line: &[u8]) -> Result<Said, SysKind>
        requires { IsPlaying self.now }
        ensures { Judges self.now line.now result }
    {
        if is_end(line) {
            judge_bytes(line, Said::End)
        } else if is_empty(line) {
            judge_bytes(line, Said::Blank)
        } else {
            self.judge_form(line, step_line(line))
        }
    }

    // The same of a line with words after the first such line, by its form.
    fn judge_form(&self, line: &[u8], form: Result<FrameLine, SysKind>) -> Result<Said, SysKind>
        requires { IsFormOf self.now line.now form }
        ensures { Judges self.now line.now result }
    {
        if !all_allowed(line) {
            return Err(SysKind::BadLine);
        }
        match form {
            Ok(form) => match self.fault(&form) {
                Some(kind) => Err(kind),
                None => Ok(Said::Form(form)),
            },
            Err(kind) => Err(kind),
        }
    }

    // What the lines before it have against a line whose form and numbers are good.
    fn fault(&self, form: &FrameLine) -> Option<SysKind>
        ensures { result ≡ later_fault self.now form.now }
    {
        match form {
            FrameLine::Node(node) => self.node_fault(*node),
            FrameLine::Link(link) => self.link_fault(*link),
            FrameLine::Bit(bit) => self.bit_fault(bit),
            FrameLine::Wire(wire) => self.wire_fault(*wire),
            FrameLine::Section(SectionKind::Source(number)) => self.source_fault(*number),
            FrameLine::Section(SectionKind::Pins) => self.twice_fault(SectionKind::Pins),
            FrameLine::Section(SectionKind::Play) => self.twice_fault(SectionKind::Play),
            FrameLine::Step(step) => self.step_fault(*step),
        }
    }

    fn node_fault(&self, node: NodeLine) -> Option<SysKind>
        ensures { result ≡ later_fault self.now (FrameLine.Node node) }
    {
        if self.has_node(node.number) {
            Some(SysKind::GivenTwice)
        } else if self.has_id(node.id) {
            Some(SysKind::IdTwice)
        } else if self.nodes().len() >= MOST_NODES {
            Some(SysKind::TooMany)
        } else {
            None
        }
    }

    fn link_fault(&self, link: LinkLine) -> Option<SysKind>
        ensures { result ≡ later_fault self.now (FrameLine.Link link) }
    {
        if !(self.has_node(link.a.node) && self.has_node(link.b.node)) {
            Some(SysKind::NoSuchNode)
        } else if link.a.node == link.b.node {
            Some(SysKind::LinkToItself)
        } else if self.has_link_end(link.a) || self.has_link_end(link.b) {
            Some(SysKind::LinkEndTwice)
        } else if self.links().len() >= MOST_LINKS {
            Some(SysKind::TooMany)
        } else {
            None
        }
    }

    fn bit_fault(&self, bit: &BitLine) -> Option<SysKind>
        ensures { result ≡ later_fault self.now (FrameLine.Bit bit.now) }
    {
        if !(self.has_node(bit.node) && self.has_link_ends(bit.node, &bit.ends)) {
            Some(SysKind::NoSuchNode)
        } else if stands_twice(&bit.ends) {
            Some(SysKind::LinkEndTwice)
        } else if self.has_bit(bit.node, bit.bit) {
            Some(SysKind::BitTwice)
        } else {
            None
        }
    }

    fn wire_fault(&self, wire: WireLine) -> Option<SysKind>
        ensures { result ≡ later_fault self.now (FrameLine.Wire wire) }
    {
        if !(self.has_node(wire.a.node) && self.has_node(wire.b.node)) {
            Some(SysKind::NoSuchNode)
        } else if wire.a.node == wire.b.node {
            Some(SysKind::WireWithinNode)
        } else if width_of(wire.a.port) != width_of(wire.b.port) {
            Some(SysKind::WidthsDiffer)
        } else if is_wired(self.wires(), wire.b) {
            Some(SysKind::PinWiredTwice)
        } else if self.wires().len() >= MOST_WIRES {
            Some(SysKind::TooManyWires)
        } else {
            None
        }
    }

    fn source_fault(&self, number: u8) -> Option<SysKind>
        ensures { result ≡ later_fault self.now (FrameLine.Section (SectionKind.Source number)) }
    {
        if !self.has_node(number) {
            Some(SysKind::NoSuchNode)
        } else if self.has_section(SectionKind::Source(number)) {
            Some(SysKind::GivenTwice)
        } else {
            None
        }
    }

    // Of the sections that name no node.
    fn twice_fault(&self, kind: SectionKind) -> Option<SysKind>
        requires { NamesNoNode kind }
        ensures { result ≡ later_fault self.now (FrameLine.Section kind) }
    {
        if self.has_section(kind) {
            Some(SysKind::GivenTwice)
        } else {
            None
        }
    }

    fn step_fault(&self, step: PlayLine) -> Option<SysKind>
        ensures { result ≡ later_fault self.now (FrameLine.Step step) }
    {
        let known = match step {
            PlayLine::Take(name) => self.has_node(name.node) && self.has_end_in(name),
            PlayLine::Run { node, .. } => self.has_node(node),
            PlayLine::Send(name) => self.has_node(name.node) && self.has_end_out(name),
        };
        if known {
            None
        } else {
            Some(SysKind::NoSuchNode)
        }
    }

    fn has_node(&self, number: u8) -> bool
        ensures { result ≡ has_node self.now.nodes number }
    {
        self.nodes.iter().any(|node| node.number == number)
    }

    fn has_id(&self, id: u16) -> bool
        ensures { result ≡ list_any (λ node. node.id == id) self.now.nodes }
    {
        self.nodes.iter().any(|node| node.id == id)
    }

    // Whether a link end is in a link.
    fn has_link_end(&self, name: EndName) -> bool
        ensures { result ≡ has_link_end self.now.links name }
    {
        self.links.iter().any(|link| is_same_end(link.a, name) || is_same_end(link.b, name))
    }

    // Whether a link or a wire comes to an end.
    fn has_end_in(&self, name: EndName) -> bool
        ensures { result ≡ has_end_in self.now.links self.now.wires name }
    {
        self.has_link_end(name) || is_wire_end(count_coming(self.wires(), name.node), name.end)
    }

    // Whether one leaves by it.
    fn has_end_out(&self, name: EndName) -> bool
        ensures { result ≡ has_end_out self.now.links self.now.wires name }
    {
        self.has_link_end(name) || is_wire_end(count_leaving(self.wires(), name.node), name.end)
    }

    // Whether all of these link ends of a node are.
    fn has_link_ends(&self, node: u8, ends: &[u8]) -> bool
        ensures { result ≡ has_link_ends self.now.links node ends.now }
    {
        ends.iter()
            .all(|end| self.has_link_end(EndName { node, end: *end }))
    }

    fn has_bit(&self, node: u8, bit: u8) -> bool
        ensures { result ≡ list_any (λ other. (other.node == node) && (other.bit == bit)) self.now.bits }
    {
        self.bits
            .iter()
            .any(|other| other.node == node && other.bit == bit)
    }

    fn has_section(&self, kind: SectionKind) -> bool
        ensures { result ≡ has_section self.now.sections kind }
    {
        holds(&self.sections, kind)
    }

    // What a line without a fault gives, but for one that begins a source or a script. Memory may be wanting only where
    // something is kept of the line.
    pub fn add(&mut self, line: u32, said: Said) -> Result<(), AllocError>
        requires { (kind : SectionKind) → said_by said ≡ Form (FrameLine.Section kind) → kind ≡ SectionKind.Play }
        ensures given { OnOk result (self.new ≡ given_with line [] (said_by said) self.old) }
        ensures memory { (after : List (List ℕ)) → IsErr result → IsKept after (said_by said) }
    {
        match said {
            Said::Header(edition) => self.edition = Some(edition),
            Said::End => self.end_play()?,
            Said::Form(FrameLine::Section(SectionKind::Play)) => self.playing = Some(line),
            Said::Form(FrameLine::Step(step)) => self.steps.push(step)?,
            Said::Form(FrameLine::Node(node)) => self.add_node(line, node)?,
            Said::Form(FrameLine::Link(link)) => self.links.push(link)?,
            Said::Form(FrameLine::Bit(bit)) => self.bits.push(bit)?,
            Said::Form(FrameLine::Wire(wire)) => self.wires.push(wire)?,
            _ => {}
        }
        Ok(())
    }

    // One more node, among the others by its number.
    fn add_node(&mut self, line: u32, node: NodeLine) -> Result<(), AllocError>
        ensures { OnOk result (self.new ≡ given_with line [] (Form (FrameLine.Node node)) self.old) }
    {
        let place = count_lesser(&self.nodes, node.number);
        self.nodes.insert(
            place,
            GivenNode {
                line,
                number: node.number,
                id: node.id,
            },
        )?;
        Ok(())
    }

    // The end of the section `play`. It keeps no lines: its steps are given already.
    fn end_play(&mut self) -> Result<(), AllocError>
        ensures { OnOk result (self.new ≡ given_with 0 [] End self.old) }
    {
        let Some(line) = self.playing else {
            return Ok(());
        };
        self.sections.push(SectionText {
            kind: SectionKind::Play,
            line,
            text: b"",
        })?;
        self.playing = None;
        Ok(())
    }

    // One more section, which has ended. None is being read after it.
    pub fn add_section(&mut self, section: SectionText<'a>) -> Result<(), AllocError>
        requires { IsShortSource section.text.now }
        ensures { OnOk result (self.new ≡ with_section (record { kind = section.entry.kind; line = section.entry.line; lines = lines_of section.entry.text.now }) self.old) }
    {
        self.sections.push(section)?;
        self.playing = None;
        Ok(())
    }

    // The number of the line that begins a section that has not ended.
    pub fn unended(&self) -> Option<u32>
        ensures { result ≡ option_map (λ section. section.line) self.now.reading }
    {
        self.playing
    }

    // The number of the line of the first node that has no source.
    pub fn without_source(&self) -> Option<u32>
        ensures { result ≡ option_map (λ node. node.line) (without_source self.now) }
    {
        let node = self
            .nodes
            .iter()
            .find(|node| !self.has_section(SectionKind::Source(node.number)))?;
        Some(node.line)
    }

    // The edition of the nodes.
    pub fn edition(&self) -> u8
        ensures { result ≡ edition_given self.now.edition }
    {
        match self.edition {
            Some(edition) => edition,
            None => 1,
        }
    }

    pub fn nodes(&self) -> &[GivenNode]
        ensures { result.now ≡ self.now.nodes }
    {
        &self.nodes
    }

    pub fn links(&self) -> &[LinkLine]
        ensures { result.now ≡ self.now.links }
    {
        &self.links
    }

    pub fn bits(&self) -> &[BitLine]
        ensures { result.now ≡ self.now.bits }
    {
        &self.bits
    }

    pub fn wires(&self) -> &[WireLine]
        ensures { result.now ≡ self.now.wires }
    {
        &self.wires
    }

    pub fn steps(&self) -> &[PlayLine]
        ensures { result.now ≡ self.now.steps }
    {
        &self.steps
    }

    // The text of the section that holds this, no bytes where there is no such section.
    pub fn section(&self, kind: SectionKind) -> &'a [u8]
        ensures lines { lines_of result.now ≡ section_lines self.now.sections kind }
        ensures short { IsShortSource result.now }
    {
        for section in &self.sections {
            if is_same_kind(section.kind, kind) {
                return section.text;
            }
        }
        b""
    }
}

// Whether two names are of one link end.
pub fn is_same_end(a: EndName, b: EndName) -> bool
    ensures { result ≡ is_same_end a b }
{
    a.node == b.node && a.end == b.end
}

// Whether two sections hold the same.
fn is_same_kind(a: SectionKind, b: SectionKind) -> bool
    ensures { result ≡ is_same_kind a b }
{
    match (a, b) {
        (SectionKind::Source(m), SectionKind::Source(n)) => m == n,
        (SectionKind::Pins, SectionKind::Pins) => true,
        (SectionKind::Play, SectionKind::Play) => true,
        _ => false,
    }
}

// Whether one of the sections holds this.
fn holds(sections: &[SectionText], kind: SectionKind) -> bool
    ensures { result ≡ list_any (λ section. is_same_kind section.kind kind) sections.now }
{
    sections
        .iter()
        .any(|section| is_same_kind(section.kind, kind))
}

// How many nodes at the front have lesser numbers.
fn count_lesser(nodes: &[GivenNode], number: u8) -> usize
    ensures count { result ≡ prefix_len (λ node. nat_lt node.number number) nodes.now }
    ensures within { result ≤ length nodes.now }
{
    nodes.iter().take_while(|node| node.number < number).count()
}

// What a line says that can have no fault but a byte that is not allowed, or that fault.
fn judge_bytes(line: &[u8], said: Said) -> Result<Said, SysKind>
    requires { IsFormless said }
    ensures { (given : Given) → says given line.now ≡ said_by said → Judges given line.now result }
{
    if all_allowed(line) {
        Ok(said)
    } else {
        Err(SysKind::BadLine)
    }
}

// What the first line with words says, or its fault.
fn judge_first(line: &[u8]) -> Result<Said, SysKind>
    requires { is_empty (words_of_line line.now) ≡ false }
    ensures { (given : Given) → given.edition ≡ None → given.reading ≡ None → Judges given line.now result }
{
    let Some(edition) = edition_of_header(line) else {
        return Err(SysKind::FirstLine);
    };
    if !all_allowed(line) {
        return Err(SysKind::BadLine);
    }
    Ok(Said::Header(edition))
}
