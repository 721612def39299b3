//! A link that carries the first two bytes of a header, as the first link of a plan of two nodes does, and what its log is to be.
ghost use Rattle.std.specs.Prelude.{◌≡◌, List, [], ◌∷◌, ◌==◌, if◌then◌else◌, IfOk};
ghost use Rattle.xs_base.specs.declared.entry.Entry.{Entry};
ghost use Rattle.xs_base.specs.declared.entry.What.TheVariants.{Token as sent};
ghost use Rattle.xs_base.specs.declared.token.Token.TheVariants.{Byte};
ghost use Rattle.std.proofs.Common.{rules};

use link_logs::{Got, Log, Story};
use std::alloc::{AllocError, Global};
use xs_base::{Batch, Entry, Token, What};

/// The byte 0 in slot 13, and the byte 1 in slot 17.
#[derive(Drop)]
pub struct HeaderBytes;

impl Story for HeaderBytes {
    type Run = u8;

    ghost run = { λ _. 0 };

    ghost number = { λ _. 0 };

    ghost entries_at = { λ _ _ slot. if slot == 13 then (record { slot = 13; what = sent (Byte 0) }) ∷ [] else (if slot == 17 then (record { slot = 17; what = sent (Byte 1) }) ∷ [] else []) };

    fn link(&self) -> u32 {
        0
    }

    ghost at_most_two = { Prim.search rules };
}

/// The entry of the byte in a slot.
pub fn byte_in(slot: u32, value: u8) -> Entry
    ensures { result ≡ record { slot = slot; what = sent (Byte value) } }
{
    Entry {
        slot,
        what: What::Token(Token::Byte(value)),
    }
}

/// Both bytes. The error is want of memory.
pub fn header(alloc: Global) -> Result<Batch, AllocError>
    ensures { IfOk result (λ batch. batch.entries ≡ (record { slot = 13; what = sent (Byte 0) }) ∷ (record { slot = 17; what = sent (Byte 1) }) ∷ []) }
{
    let mut batch = Batch::new(alloc);
    batch.reserve(2)?;
    batch.add(byte_in(13, 0));
    batch.add(byte_in(17, 1));
    Ok(batch)
}

/// Whether a look gave both, from slot 0 to 20.
pub fn is_header(got: &Got) -> bool {
    match got {
        Got::Entries { from, to, batch } => {
            *from == 0
                && *to == 20
                && batch.entries() == [byte_in(13, 0), byte_in(17, 1)].as_slice()
        }
        Got::Nothing { .. } | Got::Closed => false,
    }
}

/// Whether a log that was published up to slot 20 begins at this slot, holds so many entries, and has carried two tokens and no credit.
pub fn holds(log: &Log<HeaderBytes>, base: u32, held: usize) -> bool {
    log.base() == base && log.published() == 20 && log.held() == held && log.totals() == (2, 0)
}
