//! Entries of directed links and wires as bytes.
ghost use Rattle.std.specs.Prelude.{◌≡◌, ◌≤◌, ◌<◌, ◌^◌, [], ◌∷◌, ◌++◌, List, IfOk, OnOk};
ghost use Rattle.xs_base.specs.declared.entry.Entry.{Entry};
ghost use Rattle.byte_forms.specs.Reading.{Gives};
ghost use Rattle.log_forms.specs.Entries.{before_of, is_after, is_in_flight, is_not_before, kind_of, may_follow, value_limit, value_of, what_of};
ghost use Rattle.log_forms.specs.Entries.{any_entry, level, link_slot, link_value, wire_entry, wire_kind, wire_slot};
ghost use Rattle.log_forms.specs.Windows.{law_holds, link_count, link_entry, link_kind};

use crate::counts::Counts;
use crate::ends::Ends;
use byte_forms::{Fault, Reader, write_byte, write_word};
use std::alloc::AllocError;
use xs_base::{Entry, Text, Token, What};

/// What an entry is told of those before it: how many there are, the last of them, and how many are tokens and how many are credits.
#[derive(Clone, Copy)]
pub(crate) struct Before {
    pub(crate) place: usize,
    pub(crate) last: Option<Entry>,
    pub(crate) counts: Counts,
}

impl Before {
    /// What the first entry is told.
    pub(crate) fn none() -> Before
        ensures value { result ≡ before_of [] }
    {
        Before {
            place: 0,
            last: None,
            counts: Counts::none(),
        }
    }

    /// What the entry after one more is told, which is a token or a credit.
    pub(crate) fn with(self, e: Entry) -> Before
        requires place { self.place < 2 ^ 63 }
        requires tokens { self.counts.tokens ≤ self.place }
        requires credits { self.counts.credits ≤ self.place }
        ensures value { (entries : List Entry) → self ≡ before_of entries → kind_of e.what < 3 → result ≡ before_of (entries ++ e ∷ []) }
    {
        Before {
            place: self.place + 1,
            last: Some(e),
            counts: self.counts.with(kind_and_value(e.what).0),
        }
    }
}

// ---- What is tested

// Whether a slot lies from a delay before the snapshot's on and before the snapshot's.
fn is_in_flight(slot: u32, delay: u32, at: u32) -> bool
    ensures value { result ≡ is_in_flight slot delay at }
{
    slot.saturating_sub(delay) <= at && at < slot
}

fn is_not_before(last: Option<Entry>, at: u32) -> bool
    ensures value { result ≡ is_not_before last at }
{
    match last {
        None => true,
        Some(e) => e.slot <= at,
    }
}

fn is_after(last: Option<Entry>, at: u32) -> bool
    ensures value { result ≡ is_after last at }
{
    match last {
        None => true,
        Some(e) => e.slot < at,
    }
}

// Whether a kind may stand after an entry: in its slot only a credit after a token.
fn may_follow(last: Option<Entry>, at: u32, kind: u8) -> bool
    ensures value { result ≡ may_follow last at kind }
{
    match last {
        None => true,
        Some(e) => {
            if e.slot == at {
                matches!(e.what, What::Token(_)) && kind == 2
            } else {
                true
            }
        }
    }
}

// Whether the law on windows holds, where the ends are given.
fn law_holds(ends: &Option<Ends>, back: Counts) -> bool
    ensures value { result ≡ law_holds ends.now back }
{
    match ends {
        None => true,
        Some(ends) => ends.fit(back),
    }
}

// ---- Fields

#[tactic(auto, unfolding(crate::specs::Entries::link_slot))]
fn read_link_slot(
    from: &mut Reader,
    slot: u32,
    delay: u32,
    last: Option<Entry>,
) -> Result<u32, Fault>
    ensures value { Gives (link_slot slot delay last) (λ x. x) from.old result from.new }
{
    let left = from.left();
    let at = from.read_word()?;
    if is_in_flight(slot, delay, at) && is_not_before(last, at) {
        Ok(at)
    } else {
        Err(Fault::Wrong(left))
    }
}

#[tactic(auto, unfolding(crate::specs::Entries::wire_slot))]
fn read_wire_slot(
    from: &mut Reader,
    slot: u32,
    delay: u32,
    last: Option<Entry>,
) -> Result<u32, Fault>
    ensures value { Gives (wire_slot slot delay last) (λ x. x) from.old result from.new }
{
    let left = from.left();
    let at = from.read_word()?;
    if is_in_flight(slot, delay, at) && is_after(last, at) {
        Ok(at)
    } else {
        Err(Fault::Wrong(left))
    }
}

/// Reads how many entries a directed link has.
#[tactic(auto, unfolding(crate::specs::Windows::link_count))]
pub(crate) fn read_link_count(from: &mut Reader, ends: &Option<Ends>) -> Result<u32, Fault>
    ensures value { Gives (link_count ends.now) (λ x. x) from.old result from.new }
{
    let left = from.left();
    let count = from.read_word()?;
    if count != 0 || law_holds(ends, Counts::none()) {
        Ok(count)
    } else {
        Err(Fault::Wrong(left))
    }
}

#[tactic(auto, unfolding(crate::specs::Windows::link_kind))]
fn read_link_kind(
    from: &mut Reader,
    ends: &Option<Ends>,
    count: usize,
    before: Before,
    at: u32,
) -> Result<u8, Fault>
    requires place { before.place < 2 ^ 63 }
    requires tokens { before.counts.tokens ≤ before.place }
    requires credits { before.counts.credits ≤ before.place }
    ensures value { Gives (link_kind ends.now count before at) (λ x. x) from.old result from.new }
    ensures kind { IfOk result (λ kind. kind < 3) }
{
    let left = from.left();
    let kind = from.read_byte()?;
    if kind < 3
        && may_follow(before.last, at, kind)
        && (before.place + 1 != count || law_holds(ends, before.counts.with(kind)))
    {
        Ok(kind)
    } else {
        Err(Fault::Wrong(left))
    }
}

// What the value of a token, or of a credit, is below.
fn value_limit(kind: u8) -> u64
    ensures value { result ≡ value_limit kind }
{
    if kind == 2 { 1 } else { 256 }
}

#[tactic(auto, unfolding(crate::specs::Entries::link_value))]
fn read_link_value(from: &mut Reader, kind: u8) -> Result<u32, Fault>
    ensures value { Gives (link_value kind) (λ x. x) from.old result from.new }
    ensures byte { IfOk result (λ n. n < 256) }
{
    from.read_word_below(value_limit(kind))
}

#[tactic(auto, unfolding(crate::specs::Entries::wire_kind))]
fn read_wire_kind(from: &mut Reader) -> Result<u8, Fault>
    ensures value { Gives wire_kind (λ x. x) from.old result from.new }
    ensures kind { IfOk result (λ kind. kind ≡ 3) }
{
    let left = from.left();
    let kind = from.read_byte()?;
    if kind == 3 {
        Ok(kind)
    } else {
        Err(Fault::Wrong(left))
    }
}

#[tactic(auto, unfolding(crate::specs::Entries::level))]
fn read_level(from: &mut Reader, width: u8) -> Result<u32, Fault>
    requires width { width ≤ 32 }
    ensures value { Gives (level width) (λ x. x) from.old result from.new }
{
    from.read_word_below(1 << width)
}

// ---- Entries

// What is sent of a kind, with a value.
fn what_of(kind: u8, value: u32) -> What
    requires byte { kind < 3 → value < 256 }
    ensures value { result ≡ what_of kind value }
{
    match kind {
        0 => What::Token(Token::Byte(value as u8)),
        1 => What::Token(Token::Ctrl(value as u8)),
        2 => What::Credit,
        _ => What::Level(value),
    }
}

/// Reads an entry of a directed link.
#[tactic(auto, unfolding(crate::specs::Windows::link_entry))]
pub(crate) fn read_link_entry(
    from: &mut Reader,
    slot: u32,
    delay: u32,
    ends: &Option<Ends>,
    count: usize,
    before: Before,
) -> Result<Entry, Fault>
    requires place { before.place < 2 ^ 63 }
    requires tokens { before.counts.tokens ≤ before.place }
    requires credits { before.counts.credits ≤ before.place }
    ensures value { Gives (link_entry slot delay ends.now count before) (λ x. x) from.old result from.new }
    ensures kind { IfOk result (λ e. kind_of e.what < 3) }
{
    let at = read_link_slot(from, slot, delay, before.last)?;
    let kind = read_link_kind(from, ends, count, before, at)?;
    let value = read_link_value(from, kind)?;
    Ok(Entry {
        slot: at,
        what: what_of(kind, value),
    })
}

/// Reads an entry of a wire.
#[tactic(auto, unfolding(crate::specs::Entries::wire_entry))]
pub(crate) fn read_wire_entry(
    from: &mut Reader,
    slot: u32,
    delay: u32,
    width: u8,
    last: Option<Entry>,
) -> Result<Entry, Fault>
    requires width { width ≤ 32 }
    ensures value { Gives (wire_entry slot delay width last) (λ x. x) from.old result from.new }
{
    let at = read_wire_slot(from, slot, delay, last)?;
    let kind = read_wire_kind(from)?;
    let value = read_level(from, width)?;
    Ok(Entry {
        slot: at,
        what: what_of(kind, value),
    })
}

// The kind of what is sent, and its value.
fn kind_and_value(what: What) -> (u8, u32)
    ensures kind { result.0 ≡ kind_of what }
    ensures value { result.1 ≡ value_of what }
{
    match what {
        What::Token(Token::Byte(b)) => (0, u32::from(b)),
        What::Token(Token::Ctrl(c)) => (1, u32::from(c)),
        What::Credit => (2, 0),
        What::Level(n) => (3, n),
    }
}

/// Writes an entry.
pub(crate) fn write_entry(out: &mut Text, e: Entry) -> Result<(), AllocError>
    ensures value { OnOk result (out.new ≡ out.old ++ any_entry.write e) }
{
    let (kind, value) = kind_and_value(e.what);
    write_word(out, e.slot)?;
    write_byte(out, kind)?;
    write_word(out, value)
}
