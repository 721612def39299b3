//! `Marks`, who enabled what.
ghost use Rattle.std.specs.Prelude.{ℕ, ◌≡◌, ◌<◌, ◌==◌, ◌&&◌, true, false, if◌then◌else◌, List, length, replicate, slice_index_or, slice_set, IfSome};
ghost use Rattle.xs_base.specs.declared.numbers.TheConstants.{THREADS};
ghost use Rattle.xs_model.specs.Masks.{in_mask};
ghost use Rattle.xs_model.specs.Syncs.{is_thread};
ghost use Rattle.xs_model.specs.Record.{EnablingRec, not_enabled};
ghost use Rattle.event_unit.specs.Marks.{AreMarks, HasThread, entry_at};

use crate::enabling::Enabling;
use bit_masks::with_bit;

/// What a group keeps beside its entries, at most 32, so that none of them has to be asked: bit n is that of entry n.
#[derive(Clone, Copy)]
pub(crate) struct Marks {
    /// For each thread what it enabled.
    pub(crate) enabled: [u32; 8],
    /// What gives interrupts.
    pub(crate) interrupts: u32,
}

impl Marks {
    /// The marks where nothing is set.
    pub(crate) fn none() -> Marks
        ensures marks { (count : ℕ) → AreMarks result.enabled result.interrupts (replicate count not_enabled) }
    {
        Marks {
            enabled: [0; 8],
            interrupts: 0,
        }
    }

    /// Notes that entry `n`, 0 to 31, was `before` and is `after` now.
    pub(crate) fn note(&mut self, n: u8, before: &Enabling, after: &Enabling)
        requires place { n < 32 }
        requires before { HasThread before.now }
        requires after { HasThread after.now }
        ensures marks { (entries : List EnablingRec) → n < length entries → entry_at entries n ≡ before.now
            → AreMarks self.old.enabled self.old.interrupts entries → AreMarks self.new.enabled self.new.interrupts (slice_set entries n after.now) }
    {
        note_thread(&mut self.enabled, n, before.thread(), false);
        note_thread(&mut self.enabled, n, after.thread(), true);
        self.interrupts = with_bit(self.interrupts, n, after.interrupt());
    }
}

// Sets bit `n`, 0 to 31, in the mask of a thread where this holds, and else clears it.
fn note_thread(enabled: &mut [u32; 8], n: u8, thread: Option<u8>, holds: bool)
    requires place { n < 32 }
    requires thread { IfSome thread (λ k. k < THREADS) }
    ensures { (k : ℕ) → k < THREADS → (m : ℕ) → m < 32
        → in_mask (slice_index_or enabled.new k 0) m ≡ (if m == n && is_thread k thread then holds else in_mask (slice_index_or enabled.old k 0) m) }
{
    if let Some(k) = thread {
        enabled[k as usize] = with_bit(enabled[k as usize], n, holds);
    }
}
