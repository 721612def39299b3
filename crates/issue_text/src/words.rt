//! `Word`, a word that is watched.
ghost use Rattle.std.specs.Prelude.{◌≡◌, ◌/◌, ◌==◌, map, IfOk, OnOk, option_map};
ghost use Rattle.std.specs.List.{find};
ghost use Rattle.issue_model.specs.Watch.{word_around, value_around};
ghost use Rattle.issue_text.specs.Words.{word_of};

use core_step::Core;
use std::alloc::AllocError;

/// An address, and what the word was in which it lies.
#[derive(Clone, Copy)]
pub(crate) struct Word {
    pub(crate) at: u32,
    pub(crate) was: u32,
}

/// Keeps what the words of a core are in which these addresses lie, in place of what was kept. The error is want of memory.
pub(crate) fn keep_words(
    core: &Core,
    addresses: &[u32],
    words: &mut Vec<Word>,
) -> Result<(), AllocError>
    ensures { OnOk result (words.new.items ≡ map (word_of core.now.core.memory) addresses.now) }
{
    words.clear();
    for at in addresses {
        words.push(Word {
            at: *at,
            was: value_around(core, *at),
        })?;
    }
    Ok(())
}

/// What was kept of the word in which an address lies: None exactly where none is kept.
pub(crate) fn kept_word(words: &[Word], at: u32) -> Option<u32>
    ensures { result ≡ option_map (λ (w : Word). w.was) (find (λ (w : Word). (w.at / 4) == (at / 4)) words.now) }
{
    words.iter().find(|w| w.at / 4 == at / 4).map(|w| w.was)
}

/// The address of the word in which an address lies.
pub(crate) fn word_around(at: u32) -> u32
    ensures { result ≡ word_around at }
{
    4 * (at / 4)
}

/// The word of a core's memory in which an address lies, and 0 outside the memory.
pub(crate) fn value_around(core: &Core, at: u32) -> u32
    ensures { result ≡ value_around core.now.core.memory at }
{
    core.word(word_around(at)).unwrap_or(0)
}
