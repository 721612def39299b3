//! `NodeState`, what a snapshot keeps of a node.
ghost use Rattle.std.specs.Prelude.{◌≡◌, List, ℕ, IfOk};
ghost use Rattle.xs_model.specs.Record.{free_thread};
ghost use Rattle.core_step.specs.States.{core_rec, with_core, no_state, AreUnitStates};

use buffered_ports::{PortState, Ports};
use chan_ends::{ChanEnds, ChanState};
use core_memory::Ram;
use core_units::Units;
use event_unit::{EnableState, Events};
use link_ends::EndState;
use std::alloc::{AllocError, Global};
use switch_routes::InputState;
use sync_locks::{LockState, SyncState, Syncs};
use thread_slots::Slots;
use timers_clocks::{ClockState, Clocks, TimerState, Timers};
use xs_model::{Run, Thread};

// A timer, a clock block, a synchroniser and a lock that are not in use, and what a resource gives that gives nothing.
const TIMER: TimerState = TimerState {
    used: false,
    after: false,
    value: 0,
};

const CLOCK: ClockState = ClockState {
    on: false,
    running: false,
    div: 0,
};

const SYNC: SyncState = SyncState {
    used: false,
    master: 0,
    slaves: 0,
};

const LOCK: LockState = LockState {
    used: false,
    owner: None,
};

const ENABLE: EnableState = EnableState {
    vector: 0,
    env: 0,
    interrupt: false,
    by: None,
};

/// What a snapshot keeps of a node, each part by the numbers of what it is of. Slots that it keeps are below that of the
/// snapshot. See docs/SNAPSHOTS.md.
#[derive(Drop)]
pub struct NodeState {
    /// The threads: their registers, and what they do.
    pub threads: [Thread; 8],
    /// The slot in which each thread issued last, or never.
    pub last: [Option<u32>; 8],
    /// The channel ends.
    pub chans: [ChanState; 32],
    /// The timers.
    pub timers: [TimerState; 10],
    /// The clock blocks.
    pub clocks: [ClockState; 6],
    /// The synchronisers.
    pub syncs: [SyncState; 7],
    /// The locks.
    pub locks: [LockState; 4],
    /// The ports.
    pub ports: [PortState; 29],
    /// What each channel end gives where it is ready.
    pub chan_enables: [EnableState; 32],
    /// What each timer gives.
    pub timer_enables: [EnableState; 10],
    /// What each port gives.
    pub port_enables: [EnableState; 29],
    /// The inputs of the switch: those of link ends 0 to 7, then those of channel ends 0 to 31.
    pub inputs: [InputState; 40],
    /// The link ends, all 0 where there is none.
    pub ends: [EndState; 8],
    /// The slot of the core's last division, or never.
    pub division: Option<u32>,
    /// What the pins of each port showed at the end of the slot before, below 2^width of the port.
    pub levels: [u32; 29],
    /// The memory.
    pub memory: Ram,
}

impl NodeState {
    /// The state of nothing: all 0, so that every thread is free. The error is want of memory. See docs/SNAPSHOTS.md.
    pub fn new(alloc: Global) -> Result<NodeState, AllocError>
        ensures none { IfOk result (λ state. state ≡ no_state) }
    {
        let chans: [ChanState; 32] = Default::default();
        let ends: [EndState; 8] = Default::default();
        let memory = Ram::new(alloc, &[])?;
        Ok(NodeState {
            threads: [free_thread(); 8],
            last: [None; 8],
            chans,
            timers: [TIMER; 10],
            clocks: [CLOCK; 6],
            syncs: [SYNC; 7],
            locks: [LOCK; 4],
            ports: [PortState::off(); 29],
            chan_enables: [ENABLE; 32],
            timer_enables: [ENABLE; 10],
            port_enables: [ENABLE; 29],
            inputs: [InputState::Idle; 40],
            ends,
            division: None,
            levels: [0; 29],
            memory,
        })
    }

    /// Keeps what there is of these units. It takes no memory.
    pub(crate) fn keep(&mut self, units: &Units)
        ensures { self.new ≡ with_core self.old units.now }
    {
        let (last, division) = units.slots.state();
        let (syncs, locks) = units.syncs.state();
        let (chan_enables, timer_enables, port_enables) = units.events.state();
        self.threads = units.threads;
        self.last = last;
        self.division = division;
        self.chans = units.chans.state();
        self.timers = units.timers.state();
        self.clocks = units.clocks.state();
        self.syncs = syncs;
        self.locks = locks;
        self.ports = units.ports.state();
        self.chan_enables = chan_enables;
        self.timer_enables = timer_enables;
        self.port_enables = port_enables;
        self.memory.copy_from(&units.ram);
    }

    /// The units that it says, of the node with this id, with this memory. It takes no memory.
    pub(crate) fn units(&self, id: u16, ram: Ram) -> Units
        requires facts { AreUnitStates self.now }
        ensures { result ≡ record (core_rec self.now) { memory = ram } }
    {
        Units {
            threads: self.threads,
            slots: Slots::of_state(&self.last, self.division),
            ram,
            chans: ChanEnds::of_state(id, &self.chans),
            timers: Timers::of_state(&self.timers),
            clocks: Clocks::of_state(&self.clocks),
            syncs: Syncs::of_state(&self.syncs, &self.locks),
            ports: Ports::of_state(&self.ports),
            events: Events::of_state(&self.chan_enables, &self.timer_enables, &self.port_enables),
        }
    }
}

// A thread that is free.
fn free_thread() -> Thread
    ensures { result ≡ free_thread }
{
    let mut thread = Thread::fresh();
    thread.run = Run::Free;
    thread
}
