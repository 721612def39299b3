//! A node's last division, the levels of its pins and its memory as bytes.
ghost use Rattle.std.specs.Prelude.{◌≡◌, ◌++◌, ◌^◌, ◌<◌, OnOk};
ghost use Rattle.xs_base.specs.Numbers.{Slot};
ghost use Rattle.xs_base.specs.Ids.{port_width};
ghost use Rattle.byte_forms.specs.Reading.{Gives};
ghost use Rattle.state_forms.specs.Rest.{division, levels, memory};

use byte_forms::{Fault, Reader, write_option_word, write_word};
use core_memory::Ram;
use std::alloc::{AllocError, Global};
use xs_base::numbers::MEMORY_BYTES;
use xs_base::{Text, port_width};

/// Reads the slot of the last division of a core, if there was one, which is to be below `slot`.
pub fn read_division(from: &mut Reader, slot: u32) -> Result<Option<u32>, Fault>
    ensures value { Gives (division slot) (λ last. last) from.old result from.new }
{
    from.read_option_word_below(u64::from(slot))
}

/// Writes the slot of the last division of a core, if there was one. The error is want of memory.
pub fn write_division(out: &mut Text, last: Option<u32>) -> Result<(), AllocError>
    ensures value { (slot : Slot) → OnOk result (out.new ≡ out.old ++ (division slot).write last) }
{
    write_option_word(out, last)
}

/// Reads the level of the pins of each port, which has as many bits as the port is wide, into these places.
#[tactic(auto, unfolding(crate::specs::Rest::levels))]
pub fn read_levels(from: &mut Reader, places: &mut [u32; 29]) -> Result<(), Fault>
    ensures value { Gives levels (λ _. places.new) from.old result from.new }
{
    for port in 0..29 {
        places[port as usize] = from.read_word_below(level_limit(port))?;
    }
    Ok(())
}

// The limit of the levels of the pins of a port, one bit for each pin.
fn level_limit(port: u8) -> u64
    requires { port < 29 }
    ensures { result ≡ 2 ^ port_width port }
{
    1 << port_width(port)
}

/// Writes the level of the pins of each port. The error is want of memory.
#[tactic(auto, unfolding(crate::specs::Rest::levels))]
pub fn write_levels(out: &mut Text, ports: &[u32; 29]) -> Result<(), AllocError>
    ensures value { OnOk result (out.new ≡ out.old ++ levels.write ports.now) }
{
    for level in ports {
        write_word(out, *level)?;
    }
    Ok(())
}

/// Reads a memory.
#[tactic(auto, unfolding(crate::specs::Rest::memory))]
pub fn read_memory(alloc: Global, from: &mut Reader) -> Result<Ram, Fault>
    ensures value { Gives memory (λ ram. ram) from.old result from.new }
{
    let bytes = from.read_bytes(MEMORY_BYTES as usize)?;
    Ok(Ram::new(alloc, bytes)?)
}

/// Writes a memory. The error is want of memory.
#[tactic(auto, unfolding(crate::specs::Rest::memory))]
pub fn write_memory(out: &mut Text, ram: &Ram) -> Result<(), AllocError>
    ensures value { OnOk result (out.new ≡ out.old ++ memory.write ram.now) }
{
    out.append(ram.bytes())
}
