ghost use Rattle.std.specs.Prelude.{◌≡◌, ◌≤◌, ◌∷◌, codes, is_some, length, nat_le, option_map, IfOk};
ghost use Rattle.std.specs.List.{list_all};
ghost use Rattle.xs_text.specs.Words.{words_of_line};
ghost use Rattle.xs_text.specs.Numbers.{number_of};
ghost use Rattle.system_model.specs.FrameLines.{node_line, link_line, net_of_words, bit_line, section_line, frame_line, end_name, last_end, before_colon, is_between};
ghost use Rattle.system_text.specs.Forms.{formed, ranged, or_bad, capped, capped_end, is_in_range, end_of, end_numbers, GivesEnds};
ghost use Rattle.system_text.specs.LineWords.{bytes_of};

use crate::wire_lines::wire_line;
use crate::words::{Word, line_words};
use arrayvec::ArrayVec;
use system_model::{BitLine, EndName, FrameLine, LinkLine, NodeLine, SectionKind, SysKind};
use xs_instructions::same_name;
use xs_text::{is_plain_number, number};

// An end as its name has it, before the ranges of its numbers are looked at.
#[derive(Clone, Copy)]
pub struct NamedEnd {
    node: u32,
    end: u32,
}

// A line of the frame outside of the sections, in a system of an edition. The error is that it has no form, or else that a number is out of range.
pub fn frame_line(edition: u8, line: &[u8]) -> Result<FrameLine, SysKind>
    ensures { result ≡ formed (frame_line edition (words_of_line line.now)) }
{
    match line_words(line) {
        Ok(words) => form_of(edition, &words),
        Err(kind) => Err(kind),
    }
}

// The same by the words.
fn form_of(edition: u8, words: &[Word]) -> Result<FrameLine, SysKind>
    requires { length words.now ≤ 11 }
    ensures { result ≡ formed (frame_line edition (bytes_of words.now)) }
{
    let [name, rest @ ..] = words else {
        return Err(SysKind::BadLine);
    };
    if same_name(b"node", name.bytes) {
        node_line(rest)
    } else if same_name(b"link", name.bytes) {
        link_line(edition, rest)
    } else if same_name(b"bit", name.bytes) {
        bit_line(rest)
    } else if same_name(b"wire", name.bytes) {
        wire_line(edition, rest)
    } else if same_name(b"source", name.bytes) {
        source_line(rest)
    } else if same_name(b"pins", name.bytes) {
        pins_line(rest)
    } else if same_name(b"play", name.bytes) {
        play_line(rest)
    } else {
        Err(SysKind::BadLine)
    }
}

// `N id ID` after `node`.
fn node_line(words: &[Word]) -> Result<FrameLine, SysKind>
    ensures { result ≡ formed (option_map FrameLine.Node (node_line (codes "node" ∷ bytes_of words.now))) }
{
    let [number, word, id] = words else {
        return Err(SysKind::BadLine);
    };
    if !same_name(b"id", word.bytes) {
        return Err(SysKind::BadLine);
    }
    let number = any_number(number.bytes)?;
    let id = any_number(id.bytes)?;
    Ok(FrameLine::Node(NodeLine {
        number: up_to(number, 99)? as u8,
        id: up_to(id, 65_535)? as u16,
    }))
}

// `N:E M:F delay D gap G` after `link`, in edition 2 also with `net K` after it.
fn link_line(edition: u8, words: &[Word]) -> Result<FrameLine, SysKind>
    ensures { result ≡ formed (option_map FrameLine.Link (link_line edition (codes "link" ∷ bytes_of words.now))) }
{
    let [a, b, delay_word, delay, gap_word, gap, rest @ ..] = words else {
        return Err(SysKind::BadLine);
    };
    if !same_name(b"delay", delay_word.bytes) {
        return Err(SysKind::BadLine);
    }
    if !same_name(b"gap", gap_word.bytes) {
        return Err(SysKind::BadLine);
    }
    let a = end_name(a.bytes)?;
    let b = end_name(b.bytes)?;
    let delay = any_number(delay.bytes)?;
    let gap = any_number(gap.bytes)?;
    let net = net_of_words(edition, rest)?;
    Ok(FrameLine::Link(LinkLine {
        a: end_in_range(a)?,
        b: end_in_range(b)?,
        delay: between(delay, 1, 1000)?,
        gap: between(gap, 4, 1000)?,
        net: up_to(net, 3)? as u8,
    }))
}

// The network of a link by the words after its gap: 0 where there are none, and in edition 2 also that of `net K`.
fn net_of_words(edition: u8, words: &[Word]) -> Result<u32, SysKind>
    ensures { result ≡ or_bad (option_map capped (net_of_words edition (bytes_of words.now))) }
{
    match words {
        [] => Ok(0),
        [name, net] if edition == 2 && same_name(b"net", name.bytes) => any_number(net.bytes),
        _ => Err(SysKind::BadLine),
    }
}

// `N B E` after `bit`, with up to seven more link ends.
fn bit_line(words: &[Word]) -> Result<FrameLine, SysKind>
    requires { length words.now ≤ 10 }
    ensures { result ≡ formed (option_map FrameLine.Bit (bit_line (codes "bit" ∷ bytes_of words.now))) }
{
    let [node, bit, ends @ ..] = words else {
        return Err(SysKind::BadLine);
    };
    if ends.is_empty() {
        return Err(SysKind::BadLine);
    }
    let node = any_number(node.bytes)?;
    let bit = any_number(bit.bytes)?;
    if !are_numbers(ends) {
        return Err(SysKind::BadLine);
    }
    Ok(FrameLine::Bit(BitLine {
        node: up_to(node, 99)? as u8,
        bit: up_to(bit, 15)? as u8,
        ends: end_numbers(ends)?,
    }))
}

// `N` after `source`.
fn source_line(words: &[Word]) -> Result<FrameLine, SysKind>
    ensures { result ≡ formed (option_map FrameLine.Section (section_line (codes "source" ∷ bytes_of words.now))) }
{
    let [number] = words else {
        return Err(SysKind::BadLine);
    };
    let number = any_number(number.bytes)?;
    Ok(FrameLine::Section(SectionKind::Source(up_to(number, 99)? as u8)))
}

// No word after `pins`.
fn pins_line(words: &[Word]) -> Result<FrameLine, SysKind>
    ensures { result ≡ formed (option_map FrameLine.Section (section_line (codes "pins" ∷ bytes_of words.now))) }
{
    if words.is_empty() {
        Ok(FrameLine::Section(SectionKind::Pins))
    } else {
        Err(SysKind::BadLine)
    }
}

// No word after `play`.
fn play_line(words: &[Word]) -> Result<FrameLine, SysKind>
    ensures { result ≡ formed (option_map FrameLine.Section (section_line (codes "play" ∷ bytes_of words.now))) }
{
    if words.is_empty() {
        Ok(FrameLine::Section(SectionKind::Play))
    } else {
        Err(SysKind::BadLine)
    }
}

// The number that a word is, or the greatest number of 32 bits where it is greater than that. A word that is no
// number makes a bad line.
pub fn any_number(word: &[u8]) -> Result<u32, SysKind>
    ensures { result ≡ or_bad (option_map capped (number_of word.now)) }
{
    if !is_plain_number(word) {
        return Err(SysKind::BadLine);
    }
    Ok(number(word, u32::MAX).unwrap_or(u32::MAX))
}

// A number that is at most a limit, or else it is out of range.
pub fn up_to(value: u32, most: u32) -> Result<u32, SysKind>
    ensures value { result ≡ ranged (nat_le value most) value }
    ensures most { IfOk result (λ n. n ≤ most) }
{
    if value <= most {
        Ok(value)
    } else {
        Err(SysKind::NumberOutOfRange)
    }
}

// A number from one limit to another, or else it is out of range.
pub fn between(value: u32, least: u32, most: u32) -> Result<u32, SysKind>
    ensures { result ≡ ranged (is_between least most value) value }
{
    if least <= value && value <= most {
        Ok(value)
    } else {
        Err(SysKind::NumberOutOfRange)
    }
}

// `N:E`: end E of the node with the number N.
pub fn end_name(word: &[u8]) -> Result<NamedEnd, SysKind>
    ensures { result ≡ or_bad (option_map capped_end (end_name word.now)) }
{
    let colon = before_colon(word);
    if colon == word.len() {
        return Err(SysKind::BadLine);
    }
    Ok(NamedEnd {
        node: any_number(&word[..colon])?,
        end: any_number(&word[colon + 1..])?,
    })
}

// How many bytes of a word stand before its first colon.
pub fn before_colon(word: &[u8]) -> usize
    ensures value { result ≡ before_colon word.now }
    ensures within { result ≤ length word.now }
{
    word.iter().take_while(|b| **b != b':').count()
}

// A link end whose numbers are within their ranges.
pub fn end_in_range(name: NamedEnd) -> Result<EndName, SysKind>
    ensures { result ≡ ranged (is_in_range name) (end_of name) }
{
    Ok(EndName {
        node: up_to(name.node, 99)? as u8,
        end: up_to(name.end, 7)? as u8,
    })
}

// An end of a step, whose node's number is within its range. No node has an end 255, as which a greater number is taken.
pub fn step_end(name: NamedEnd) -> Result<EndName, SysKind>
    ensures { result ≡ ranged (nat_le name.node 99) (last_end (end_of name)) }
{
    Ok(EndName {
        node: up_to(name.node, 99)? as u8,
        end: name.end.min(255) as u8,
    })
}

// Whether all words are numbers.
fn are_numbers(words: &[Word]) -> bool
    ensures { result ≡ list_all (λ word. is_some (number_of word.bytes.now)) words.now }
{
    words.iter().all(|word| is_plain_number(word.bytes))
}

// The link ends with the numbers that these words are, or else one is out of range.
fn end_numbers(words: &[Word]) -> Result<ArrayVec<u8, 8>, SysKind>
    requires { length words.now ≤ 8 }
    ensures { GivesEnds (end_numbers (bytes_of words.now)) result }
{
    let mut ends = ArrayVec::new();
    for word in words {
        match number(word.bytes, 7) {
            Some(end) => ends.push(end as u8),
            None => return Err(SysKind::NumberOutOfRange),
        }
    }
    Ok(ends)
}
