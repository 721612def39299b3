//! Resource identifiers. See docs/MACHINE.md.
ghost use Rattle.std.specs.Prelude.{ℕ, ◌≡◌, ◌≢◌, ◌<◌, ◌+◌, None, IfSome};
ghost use Rattle.xs_base.specs.Ids.{chan_id, res_id, port_id, port_width, port_index, port_letter, port_with, port_by};

use crate::numbers::{CHAN_END_KIND, PORTS};

/// The identifier of channel end `number` of the node with the id `node`.
pub fn chan_id(node: u16, number: u8) -> u32
    ensures value { result ≡ chan_id node number }
{
    u32::from(node) * 65_536 + u32::from(number) * 256 + u32::from(CHAN_END_KIND)
}

/// The identifier of the resource of a kind with a number: timers are of kind 1, synchronisers 3, threads 4, locks 5
/// and clock blocks 6.
pub fn res_id(number: u8, kind: u8) -> u32
    ensures value { result ≡ res_id number kind }
{
    u32::from(number) * 256 + u32::from(kind)
}

/// The width of a port, 0 to 28, in bits: ports 0 to 15 are 1A to 1P, then come 4A to 4F, 8A to 8D, 16A, 16B and 32A.
pub fn port_width(port: u8) -> u32
    requires { port < 29 }
    ensures value { result ≡ port_width port }
{
    match port {
        0..=15 => 1,
        16..=21 => 4,
        22..=25 => 8,
        26 | 27 => 16,
        _ => 32,
    }
}

// The place of a port among those of its width, from 0.
fn port_index(port: u8) -> u8
    requires { port < 29 }
    ensures value { result ≡ port_index port }
    ensures bound { result < 16 }
{
    match port {
        0..=15 => port,
        16..=21 => port - 16,
        22..=25 => port - 22,
        26 | 27 => port - 26,
        _ => 0,
    }
}

/// The identifier of a port, 0 to 28.
pub fn port_id(port: u8) -> u32
    requires { port < 29 }
    ensures value { result ≡ port_id port }
{
    port_width(port) * 65_536 + u32::from(port_index(port)) * 256
}

/// The port with an identifier: `None` exactly where no port has it.
pub fn port_of(id: u32) -> Option<u8>
    ensures value { result ≡ port_with id }
    ensures port { IfSome result (λ port. (port < 29) × (port_id port ≡ id)) }
    ensures none { result ≡ None → (port : ℕ) → port < 29 → port_id port ≢ id }
{
    let port = port_by(id);
    if port < PORTS && port_id(port) == id {
        Some(port)
    } else {
        None
    }
}

// The port that has an identifier, if any has it: the ports of each width stand side by side.
fn port_by(id: u32) -> u8
    ensures { result ≡ port_by id }
{
    let first = match id / 65_536 {
        1 => 0,
        4 => 16,
        8 => 22,
        16 => 26,
        _ => 28,
    };
    first + (id / 256 % 16) as u8
}

/// The port of a width in bits with a letter, an upper-case one as a byte: `None` exactly where there is none.
pub fn port_named(width: u32, letter: u8) -> Option<u8>
    ensures port { IfSome result (λ port. (port < 29) × (port_width port ≡ width) × (port_letter port ≡ letter)) }
    ensures none { result ≡ None → (port : ℕ) → port < 29 → port_width port ≡ width → port_letter port ≢ letter }
{
    for port in 0..PORTS {
        if port_width(port) == width && b'A' + port_index(port) == letter {
            return Some(port);
        }
    }
    None
}
