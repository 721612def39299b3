//! Waves at one port, edge by edge, worked by hand from the rules of docs/PORTS.md.
ghost use Rattle.std.specs.Prelude.{◌<◌};
ghost use Rattle.xs_base.specs.declared.numbers.TheConstants.{PORTS};
ghost use Rattle.single_port.specs.Asks.{IsAsk};
ghost use Rattle.single_port.specs.Keeps.{IsPlaced};

use single_port::{Ask, Port, Reply};
use xs_model::modes::{BUFFERS, ON};

// What is heard of a row.
#[derive(Clone, Copy, PartialEq, Eq, Debug)]
enum Heard {
    Done,
    Got(u32),
    Pause,
    Bad,
}

fn hear(port: &mut Port, p: u8, ask: Ask) -> Heard
    requires port { p < PORTS }
    requires ask { IsAsk ask }
    requires placed { IsPlaced p port.old }
    ensures { IsPlaced p port.new }
{
    match port.act(p, ask, 0).reply {
        Reply::Done => Heard::Done,
        Reply::Got(word) => Heard::Got(word),
        Reply::Pause(_) => Heard::Pause,
        Reply::Bad => Heard::Bad,
    }
}

// What the pins of port `p` show after a falling edge, which show 99 from outside.
fn fall(port: &mut Port, p: u8) -> u32
    requires { IsPlaced p port.old }
    ensures { IsPlaced p port.new }
{
    let _ = p;
    let _ = port.falls();
    port.level(99)
}

fn four_falls(port: &mut Port, p: u8) -> [u32; 4]
    requires { IsPlaced p port.old }
    ensures { IsPlaced p port.new }
{
    [fall(port, p), fall(port, p), fall(port, p), fall(port, p)]
}

// A rising edge of the port 4A.
fn rise(port: &mut Port, pin: u32)
    requires placed { IsPlaced 16 port.old }
    requires pin { pin < 16 }
    ensures { IsPlaced 16 port.new }
{
    if port.is_on() {
        let _ = port.rises(pin, false);
    }
}

#[test]
fn a_timed_word_waits_for_its_time(rt: HostRuntime) {
    let mut port = Port::default();
    let _ = hear(&mut port, 16, Ask::Mode(ON));
    let _ = hear(&mut port, 16, Ask::Time(3));
    let out = hear(&mut port, 16, Ask::Out(0x1A));
    let levels = four_falls(&mut port, 16);
    let stamp = hear(&mut port, 16, Ask::Stamp);
    assert!(rt; out == Heard::Done && levels == [99, 99, 0xA, 0xA] && stamp == Heard::Got(3));
}

#[test]
fn a_byte_leaves_a_narrow_port_bit_by_bit(rt: HostRuntime) {
    let mut port = Port::default();
    let _ = hear(&mut port, 0, Ask::Mode(ON));
    let too_wide = hear(&mut port, 0, Ask::Width(8));
    let _ = hear(&mut port, 0, Ask::Mode(BUFFERS));
    let wide = hear(&mut port, 0, Ask::Width(8));
    // 0xB2 is 0, 1, 0, 0, 1, 1, 0, 1, and 0x06 is 0, 1, 1, and then 0s.
    let first = hear(&mut port, 0, Ask::Out(0xB2));
    let levels = four_falls(&mut port, 0);
    assert!(rt;
        too_wide == Heard::Bad
            && wide == Heard::Done
            && first == Heard::Done
            && levels == [0, 1, 0, 0]
    );
    let second = hear(&mut port, 0, Ask::Out(0x06));
    let sync = hear(&mut port, 0, Ask::Sync);
    let levels = [
        four_falls(&mut port, 0),
        four_falls(&mut port, 0),
        four_falls(&mut port, 0),
    ];
    let done = hear(&mut port, 0, Ask::Sync);
    assert!(rt; [second, sync, done] == [Heard::Done, Heard::Pause, Heard::Done]);
    assert!(rt; levels == [[1, 1, 0, 1], [0, 1, 1, 0], [0, 0, 0, 0]]);
}

#[test]
fn a_byte_comes_in_by_two_beats(rt: HostRuntime) {
    let mut port = Port::default();
    let _ = hear(&mut port, 16, Ask::Mode(ON));
    let _ = hear(&mut port, 16, Ask::Mode(BUFFERS));
    let _ = hear(&mut port, 16, Ask::Width(8));
    rise(&mut port, 1);
    let early = hear(&mut port, 16, Ask::In);
    rise(&mut port, 2);
    assert!(rt; early == Heard::Pause && port.is_ready() && port.is_full());
    // A full register keeps what it has.
    rise(&mut port, 3);
    rise(&mut port, 4);
    // A part is complete where its bits are there.
    let heard = [
        hear(&mut port, 16, Ask::In),
        hear(&mut port, 16, Ask::InPart(6)),
        hear(&mut port, 16, Ask::InPart(4)),
    ];
    assert!(rt; heard == [Heard::Got(0x21), Heard::Bad, Heard::Pause]);
    rise(&mut port, 9);
    let part = hear(&mut port, 16, Ask::InPart(4));
    // A transfer that is cut short has the bits so far.
    rise(&mut port, 5);
    let heard = [
        part,
        hear(&mut port, 16, Ask::EndIn),
        hear(&mut port, 16, Ask::EndIn),
        hear(&mut port, 16, Ask::In),
    ];
    assert!(rt; heard == [Heard::Got(9), Heard::Got(4), Heard::Got(8), Heard::Got(5)]);
}
