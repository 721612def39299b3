//! The names of ports.
ghost use Rattle.std.specs.Prelude.{◌≡◌, ◌<◌, IfSome, bytes_eq};
ghost use Rattle.pin_scripts.specs.Pins.{port_name, port_of};

use xs_base::numbers::PORTS;

/// The number of the port that has a name, below 29: 16 for `4A`. None comes where no port has it. See docs/PINS.md.
pub fn port_of(name: &[u8]) -> Option<u8>
    ensures value { result ≡ port_of name.now }
    ensures port { IfSome result (λ port. port < 29) }
{
    for port in 0..PORTS {
        if is_name_of(port, name) {
            return Some(port);
        }
    }
    None
}

// Whether a port has a name.
fn is_name_of(port: u8, name: &[u8]) -> bool
    requires { port < 29 }
    ensures { result ≡ bytes_eq (port_name port) name.now }
{
    match port {
        0..=15 => name == [b'1', b'A' + port].as_slice(),
        16..=21 => name == [b'4', b'A' + (port - 16)].as_slice(),
        22..=25 => name == [b'8', b'A' + (port - 22)].as_slice(),
        26 | 27 => name == [b'1', b'6', b'A' + (port - 26)].as_slice(),
        _ => name == b"32A".as_slice(),
    }
}
