//! `Processor`, what a core keeps from slot to slot but for its network.
ghost use Rattle.std.specs.Prelude.{◌≡◌, ◌<◌, ◌↔◌, false, length, IsErr};
ghost use Rattle.std.specs.Borrow.{sem};
ghost use Rattle.std.specs.Result.{result_ok};
ghost use Rattle.xs_base.specs.declared.numbers.TheConstants.{MEMORY_BYTES, THREADS};
ghost use Rattle.xs_model.specs.Record.{first_core, thread_of};
ghost use Rattle.xs_model.specs.Memory.{load_word, is_word_address};
ghost use Rattle.processor.specs.Lends.{LendsChans};

use chan_ends::ChanEnds;
use core_units::{BadAddress, Ram, Units};
use core_waits::Able;
use std::marker::Model;
use xs_model::{Run, Thread};

/// A core's units, and which of its threads are able, where that is known. Contracts see the core record. See
/// docs/MACHINE.md.
#[derive(Drop)]
pub struct Processor {
    pub(crate) units: Units,
    // The threads that would issue if they were rested, where that is known.
    pub(crate) able: Option<Able>,
}

impl Model for Processor {
    ghost use Rattle.xs_model.specs.Record.{CoreRec};

    ghost Value = { CoreRec };

    ghost use Rattle.processor.specs.Processor.{IsProcessor};

    ghost view = { λ p. p.units };

    ghost invariant = { IsProcessor };
}

impl Processor {
    /// The processor of the node with this id as it starts: thread 0 goes at the entry `pc`, with the constant pool at
    /// `cp`, and no resource is in use.
    pub fn first(id: u16, pc: u32, cp: u32, ram: Ram) -> Processor
        ensures value { result ≡ first_core pc cp ram }
    {
        Processor {
            units: Units::first(id, pc, cp, ram),
            able: None,
        }
    }

    /// The processor with these units, of which nothing is known. It takes no memory.
    pub fn of_units(units: Units) -> Processor
        ensures value { result ≡ units }
    {
        Processor { units, able: None }
    }

    /// Its units.
    pub fn units(&self) -> &Units
        ensures { result.now ≡ self.now }
    {
        &self.units
    }

    /// The threads, by number. It takes no memory. See docs/MACHINE.md.
    pub fn threads(&self) -> &[Thread; 8]
        ensures { result.now ≡ self.now.threads }
    {
        threads(&self.units)
    }

    /// The slot in which each thread, by number, issued last: None exactly where it never did. It takes no memory. See docs/MACHINE.md.
    pub fn last_issues(&self) -> [Option<u32>; 8]
        ensures { result ≡ self.now.slots.last }
    {
        last_issues(&self.units)
    }

    /// The channel ends.
    #[inline]
    pub fn chans(&self) -> &ChanEnds
        ensures { result.now ≡ self.now.chans }
    {
        self.units.chans()
    }

    /// The channel ends, for the switch of the node, which works with them too.
    pub fn chans_mut(&mut self) -> &mut ChanEnds
        ensures* writes_back { sem 𝓛 (LendsChans self.entry result) }
        ensures value { result.now ≡ self.old.chans }
    {
        self.able = None;
        self.units.chans_mut()
    }

    /// What a thread, 0 to 7, does.
    pub fn run_of(&self, th: u8) -> Run
        requires { th < THREADS }
        ensures value { result ≡ (thread_of self.now th).run }
        ensures threads { length self.now.threads ≡ THREADS }
    {
        self.units.run_of(th)
    }

    /// The word of the memory at an address. `BadAddress` comes exactly where the address is outside the memory,
    /// 0x0001_0000 to 0x0001_ffff, or no multiple of 4.
    pub fn word(&self, at: u32) -> Result<u32, BadAddress>
        ensures value { result_ok result ≡ load_word self.now.memory at }
        ensures size { length self.now.memory ≡ MEMORY_BYTES }
        ensures err { IsErr result ↔ is_word_address at ≡ false }
    {
        self.units.word(at)
    }
}

// The threads of units.
fn threads(units: &Units) -> &[Thread; 8]
    ensures { result.now ≡ units.now.threads }
{
    &units.threads
}

// The slot in which each thread of units issued last.
fn last_issues(units: &Units) -> [Option<u32>; 8]
    ensures { result ≡ units.now.slots.last }
{
    let (last, _division) = units.slots.state();
    last
}
