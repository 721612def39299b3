//! `Units`, what a core keeps from slot to slot but for its network.
ghost use Rattle.std.specs.Prelude.{◌≡◌, ◌<◌, ◌↔◌, false, length, IsErr};
ghost use Rattle.std.specs.Borrow.{sem};
ghost use Rattle.std.specs.Result.{result_ok};
ghost use Rattle.core_units.specs.Lends.{LendsChans};
ghost use Rattle.xs_base.specs.declared.numbers.TheConstants.{MEMORY_BYTES, THREADS};
ghost use Rattle.xs_model.specs.Record.{first_core, free_thread, thread_of};
ghost use Rattle.xs_model.specs.Memory.{load_word, is_word_address};

use buffered_ports::Ports;
use chan_ends::ChanEnds;
use core_memory::{BadAddress, Ram};
use event_unit::Events;
use std::marker::Model;
use sync_locks::Syncs;
use thread_slots::Slots;
use timers_clocks::{Clocks, Timers};
use xs_model::{Entry0, Run, Thread};

/// A core's threads with their last issues, its memory, channel ends, timers, clock blocks, synchronisers, locks and ports,
/// and what gives events. Contracts see the core record. See docs/MACHINE.md.
#[derive(Drop)]
pub struct Units {
    /// The threads, by number.
    pub threads: [Thread; 8],
    /// The slots in which they issued last, and that in which the core divided last.
    pub slots: Slots,
    /// The memory.
    pub ram: Ram,
    /// The channel ends.
    pub chans: ChanEnds,
    /// The timers.
    pub timers: Timers,
    /// The clock blocks.
    pub clocks: Clocks,
    /// The synchronisers and the locks.
    pub syncs: Syncs,
    /// The ports.
    pub ports: Ports,
    /// What is enabled, and for whom.
    pub events: Events,
}

impl Model for Units {
    ghost use Rattle.xs_model.specs.Record.{CoreRec};

    ghost Value = { CoreRec };

    ghost use Rattle.core_units.specs.Units.{units_of, IsUnits};

    ghost view = { units_of };

    ghost invariant = { IsUnits };
}

impl Units {
    /// The units of the node with this id as they start: thread 0 goes at the entry `pc`, with the constant pool at
    /// `cp`, and no resource is in use.
    pub fn first(id: u16, pc: u32, cp: u32, ram: Ram) -> Units
        ensures value { result ≡ first_core pc cp ram }
    {
        let mut threads = [free_thread(); 8];
        threads[0] = Thread::first(&Entry0 { pc, cp });
        Units {
            threads,
            slots: Slots::new(),
            ram,
            chans: ChanEnds::new(id),
            timers: Timers::new(),
            clocks: Clocks::new(),
            syncs: Syncs::new(),
            ports: Ports::new(),
            events: Events::new(),
        }
    }

    /// The channel ends.
    #[inline]
    pub fn chans(&self) -> &ChanEnds
        ensures { result.now ≡ self.now.chans }
    {
        &self.chans
    }

    /// The channel ends, lent.
    #[inline]
    pub fn chans_mut(&mut self) -> &mut ChanEnds
        ensures* writes_back { sem 𝓛 (LendsChans self.entry result) }
        ensures value { result.now ≡ self.old.chans }
    {
        &mut self.chans
    }

    /// What a thread, 0 to 7, does.
    #[inline]
    pub fn run_of(&self, th: u8) -> Run
        requires { th < THREADS }
        ensures value { result ≡ (thread_of self.now th).run }
        ensures threads { length self.now.threads ≡ THREADS }
    {
        self.threads[th as usize].run
    }

    /// The word of the memory at an address. `BadAddress` comes exactly where the address is outside the memory,
    /// 0x0001_0000 to 0x0001_ffff, or no multiple of 4.
    pub fn word(&self, at: u32) -> Result<u32, BadAddress>
        ensures value { result_ok result ≡ load_word self.now.memory at }
        ensures size { length self.now.memory ≡ MEMORY_BYTES }
        ensures err { IsErr result ↔ is_word_address at ≡ false }
    {
        self.ram.load32(at)
    }
}

// A thread that is not there.
fn free_thread() -> Thread
    ensures { result ≡ free_thread }
{
    let mut thread = Thread::fresh();
    thread.run = Run::Free;
    thread
}
