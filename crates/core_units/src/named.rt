//! What of a core a word names.
ghost use Rattle.std.specs.Prelude.{◌≡◌, ◌<◌, ◌/◌, nat_lt, if◌then◌else◌, IfSome};
ghost use Rattle.xs_base.specs.declared.numbers.TheConstants.{CHAN_ENDS};
ghost use Rattle.net_model.specs.Chans.{chan_named};
ghost use Rattle.step_model.specs.Named.{resource_named};
ghost use Rattle.core_units.specs.Named.{IsWithin};

use xs_base::numbers::{
    CHAN_END_KIND, CHAN_ENDS, CLOCK_BLOCK_KIND, CLOCK_BLOCKS, LOCK_KIND, LOCKS, SYNCHRONISER_KIND,
    SYNCHRONISERS, THREAD_KIND, THREADS, TIMER_KIND, TIMERS,
};
use xs_base::{chan_id, port_of};
use xs_model::{Dest, Resource};

/// What a word names on the node with this id, in use or not: `None` exactly where it names nothing.
pub fn resource_named(id: u16, name: u32) -> Option<Resource>
    ensures value { result ≡ resource_named id name }
    ensures within { IfSome result IsWithin }
{
    match (name % 256) as u8 {
        TIMER_KIND => number_below(TIMERS, name).map(|timer| Resource::Timer { timer }),
        CHAN_END_KIND => chan_named(id, name).map(|chan| Resource::Chan { chan }),
        SYNCHRONISER_KIND => number_below(SYNCHRONISERS, name).map(|sync| Resource::Sync { sync }),
        THREAD_KIND => number_below(THREADS, name).map(|thread| Resource::Thread { thread }),
        LOCK_KIND => number_below(LOCKS, name).map(|lock| Resource::Lock { lock }),
        CLOCK_BLOCK_KIND => number_below(CLOCK_BLOCKS, name).map(|clock| Resource::Clock { clock }),
        _ => port_of(name).map(|port| Resource::Port { port }),
    }
}

// The number above the low byte, where it is below the count.
fn number_below(count: u8, name: u32) -> Option<u8>
    ensures value { result ≡ (if nat_lt (name / 256) count then Some (name / 256) else None) }
    ensures within { IfSome result (λ n. n < count) }
{
    let number = name / 256;
    if number < u32::from(count) {
        Some(number as u8)
    } else {
        None
    }
}

/// The channel end of this node that a word names, 0 to 31: `None` exactly where it names none.
pub fn chan_named(id: u16, name: u32) -> Option<u8>
    ensures value { result ≡ chan_named id name }
    ensures within { IfSome result (λ c. c < CHAN_ENDS) }
{
    let chan = Dest::of_id(name).chan;
    if name == chan_id(id, chan) && chan < CHAN_ENDS {
        Some(chan)
    } else {
        None
    }
}
