//! `Ends`, what is known of a link before the entries of its second directed link.
ghost use Rattle.std.specs.Prelude.{◌≡◌};
ghost use Rattle.log_forms.specs.Windows.{is_open, windows_fit};

use crate::counts::Counts;
use std::marker::Model;
use xs_base::Entry;
use xs_base::numbers::WINDOW_TOKENS;

/// What a link end holds: how many of the tokens that it sent are without a credit, and how many tokens are in its buffer.
#[derive(Clone, Copy)]
pub struct Held {
    pub window: u8,
    pub buffered: u8,
}

/// What is known of a link before the entries of its second directed link. Contracts see an `EndsRec` of
/// `Rattle.log_forms.specs.Windows`. See docs/SNAPSHOTS.md.
#[derive(Drop)]
pub struct Ends<'a> {
    forth: &'a [Entry],
    counts: Counts,
    a: Held,
    b: Held,
}

impl<'a> Model for Ends<'a> {
    ghost use Rattle.std.specs.Prelude.{◌≡◌};
    ghost use Rattle.log_forms.specs.Entries.{counts_of};
    ghost use Rattle.log_forms.specs.Windows.{EndsRec};

    ghost Value = { EndsRec };

    ghost view = { λ ends. record { forth = ends.forth.now; a = ends.a; b = ends.b } };

    ghost invariant = { λ ends. ends.counts ≡ counts_of ends.forth.now };
}

impl<'a> Ends<'a> {
    /// The entries of the first directed link, which leads from link end a to link end b, and what the two hold.
    pub fn new(forth: &'a [Entry], a: Held, b: Held) -> Ends<'a>
        ensures value { result ≡ record { forth = forth.now; a = a; b = b } }
    {
        Ends {
            forth,
            counts: Counts::of(forth),
            a,
            b,
        }
    }

    /// Whether the law on windows holds of both ends, with so many tokens and credits in flight back.
    pub(crate) fn fit(&self, back: Counts) -> bool
        ensures value { result ≡ windows_fit self.now back }
    {
        is_open(
            self.a.window,
            self.counts.tokens,
            self.b.buffered,
            back.credits,
        ) && is_open(
            self.b.window,
            back.tokens,
            self.a.buffered,
            self.counts.credits,
        ) && u32::from(self.a.window) <= WINDOW_TOKENS
            && u32::from(self.b.window) <= WINDOW_TOKENS
    }
}

// Whether a window is the sum of the tokens in flight, those in the buffer where they arrive, and the credits in flight back.
fn is_open(window: u8, tokens: usize, buffered: u8, credits: usize) -> bool
    ensures value { result ≡ is_open window tokens buffered credits }
{
    let window = usize::from(window);
    tokens <= window && credits <= window && tokens + usize::from(buffered) + credits == window
}
