//! `Crossing`, what crosses a link end in one slot. See docs/LINKS.md.
ghost use Rattle.std.specs.Prelude.{◌≡◌, ◌+◌, ◌<◌, ◌≤◌, ◌++◌, true, false};
ghost use Rattle.xs_base.specs.declared.numbers.TheConstants.{LINK_ENDS};
ghost use Rattle.crossings.specs.Crossings.{no_crossing, entry_count, entries_of, leaving_by, due_of, seen_of};

use trace_lines::Emissions;
use xs_base::{Batch, Entry, Token, What};

/// What a directed link carries in one slot: a token at most, and a credit at most.
#[derive(Clone, Copy)]
pub struct Crossing {
    pub token: Option<Token>,
    pub credit: bool,
}

impl Crossing {
    /// Nothing crosses.
    pub fn none() -> Crossing
        ensures { result ≡ no_crossing }
    {
        Crossing {
            token: None,
            credit: false,
        }
    }

    /// What leaves by a link end, of what a slot gave.
    pub fn sent(out: &Emissions, end: u8) -> Crossing
        requires { end < LINK_ENDS }
        ensures { result ≡ leaving_by out.now end }
    {
        Crossing {
            token: out.token(end),
            credit: out.credit(end),
        }
    }

    /// Whether anything crosses.
    pub fn is_some(self) -> bool
        ensures nothing { result ≡ false → self ≡ no_crossing }
        ensures something { result ≡ true → 1 ≤ entry_count self }
    {
        self.token.is_some() || self.credit
    }

    /// How many entries of a history it is made of.
    pub fn count(self) -> usize
        ensures value { result ≡ entry_count self }
        ensures most { result ≤ 2 }
    {
        usize::from(self.token.is_some()) + usize::from(self.credit)
    }

    /// Puts it after a history, as what crossed in a slot: the token, then the credit, in room that was made for two entries.
    pub fn put(self, slot: u32, history: &mut Batch)
        requires room { 2 ≤ history.old.spare }
        ensures entries { history.new.entries ≡ history.old.entries ++ entries_of slot self }
        ensures spare { history.old.spare ≤ history.new.spare + 2 }
    {
        if let Some(t) = self.token {
            history.add(Entry {
                slot,
                what: What::Token(t),
            });
        }
        if self.credit {
            history.add(Entry {
                slot,
                what: What::Credit,
            });
        }
    }
}

/// What arrives in a slot by a directed link with a delay in slots, of the first two entries that did not arrive before it. A level is none
/// of a link's, and gives nothing.
pub fn due(slot: u32, delay: u32, first: Option<Entry>, second: Option<Entry>) -> Crossing
    ensures { result ≡ seen_of (due_of slot delay first) (due_of slot delay second) }
{
    match due_now(slot, delay, first) {
        None => Crossing::none(),
        Some(What::Token(t)) => Crossing {
            token: Some(t),
            credit: due_now(slot, delay, second).is_some(),
        },
        Some(What::Credit) => Crossing {
            token: None,
            credit: true,
        },
        Some(What::Level(_)) => Crossing::none(),
    }
}

// What an entry is, if it arrives in a slot.
fn due_now(slot: u32, delay: u32, entry: Option<Entry>) -> Option<What>
    ensures { result ≡ due_of slot delay entry }
{
    let e = entry?;
    if u64::from(e.slot) + u64::from(delay) == u64::from(slot) {
        Some(e.what)
    } else {
        None
    }
}
