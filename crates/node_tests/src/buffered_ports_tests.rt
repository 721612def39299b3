//! Waves at a core's ports, edge by edge, worked by hand from the rules of docs/PORTS.md.
ghost use Rattle.std.specs.Prelude.{◌<◌, ◌^◌};
ghost use Rattle.xs_base.specs.Ids.{port_width};
ghost use Rattle.xs_base.specs.declared.numbers.TheConstants.{PORTS};

use buffered_ports::{Answer, Ask, Edge, PinChange, Ports, Reply};
use timers_clocks::Clocks;
use trace_lines::Emissions;
use xs_model::PinView;
use xs_model::modes::{EQUAL, OFF, ON};

// What is seen of a port's pins at an edge.
#[derive(Clone, Copy, PartialEq, Eq, Debug)]
enum Seen {
    Stays,
    Drives(u32),
    Floats,
}

// What is heard of a row.
#[derive(Clone, Copy, PartialEq, Eq, Debug)]
enum Heard {
    Done,
    Got(u32),
    Pause,
    Bad,
}

fn see(change: Option<PinChange>) -> Seen {
    match change {
        None => Seen::Stays,
        Some(PinChange::Drive(value)) => Seen::Drives(value),
        Some(PinChange::Float) => Seen::Floats,
    }
}

fn hear(answer: Answer) -> Heard {
    match answer.reply {
        Reply::Done => Heard::Done,
        Reply::Got(word) => Heard::Got(word),
        Reply::Pause(_) => Heard::Pause,
        Reply::Bad => Heard::Bad,
    }
}

fn fall(ports: &mut Ports, p: u8) -> Seen
    requires { p < PORTS }
{
    see(ports.edge(p, Edge::Fall, 0, false))
}

fn rise(ports: &mut Ports, p: u8, pin: u32)
    requires port { p < PORTS }
    requires pin { pin < 2 ^ port_width p }
{
    let _ = ports.edge(p, Edge::Rise, pin, false);
}

#[test]
fn a_word_is_driven_at_the_next_falling_edge(rt: HostRuntime) {
    let mut ports = Ports::new();
    let heard = [
        hear(ports.act(0, Ask::Out(1), 0)),
        hear(ports.act(0, Ask::Mode(OFF), 0)),
        hear(ports.act(0, Ask::Mode(ON), 0)),
        hear(ports.act(0, Ask::Out(3), 0)),
        hear(ports.act(0, Ask::Out(0), 0)),
    ];
    assert!(rt;
        heard
            == [
                Heard::Bad,
                Heard::Bad,
                Heard::Done,
                Heard::Done,
                Heard::Pause
            ]
    );
    let before = ports.level(0, 0);
    let driven = fall(&mut ports, 0);
    assert!(rt; before == 0 && driven == Seen::Drives(1) && ports.level(0, 0) == 1);
    let same = hear(ports.act(0, Ask::Out(1), 0));
    let stays = fall(&mut ports, 0);
    let other = hear(ports.act(0, Ask::Out(0), 0));
    let drives = fall(&mut ports, 0);
    let turned = ports.act(0, Ask::In, 0);
    let floats = see(turned.pin);
    assert!(rt; [same, other, hear(turned)] == [Heard::Done, Heard::Done, Heard::Pause]);
    assert!(rt; [stays, drives, floats] == [Seen::Stays, Seen::Drives(0), Seen::Floats]);
}

#[test]
fn a_condition_lets_a_level_in_once(rt: HostRuntime) {
    let mut ports = Ports::new();
    let _ = ports.act(16, Ask::Mode(ON), 0);
    let _ = ports.act(16, Ask::Value(0x17), 0);
    let value = hear(ports.act(16, Ask::GetValue, 0));
    let _ = ports.act(16, Ask::Mode(EQUAL), 0);
    rise(&mut ports, 16, 6);
    let other = hear(ports.act(16, Ask::In, 0));
    rise(&mut ports, 16, 7);
    let equal = hear(ports.act(16, Ask::In, 0));
    rise(&mut ports, 16, 6);
    let heard = [value, other, equal, hear(ports.act(16, Ask::In, 0))];
    assert!(rt; heard == [Heard::Got(7), Heard::Pause, Heard::Got(7), Heard::Got(6)]);
}

#[test]
fn a_timed_level_is_held(rt: HostRuntime) {
    let mut ports = Ports::new();
    let _ = ports.act(0, Ask::Mode(ON), 0);
    let _ = ports.act(0, Ask::Time(0x1_0002), 0);
    let first = fall(&mut ports, 0);
    rise(&mut ports, 0, 1);
    let early = hear(ports.act(0, Ask::In, 0));
    let second = fall(&mut ports, 0);
    rise(&mut ports, 0, 1);
    let third = fall(&mut ports, 0);
    rise(&mut ports, 0, 0);
    let heard = [
        early,
        hear(ports.act(0, Ask::In, 0)),
        hear(ports.act(0, Ask::Stamp, 0)),
    ];
    assert!(rt; [first, second, third] == [Seen::Stays; 3]);
    assert!(rt; heard == [Heard::Pause, Heard::Got(1), Heard::Got(2)]);
}

#[test]
fn a_strobe_lets_levels_in_while_it_is_high(rt: HostRuntime) {
    let mut ports = Ports::new();
    let _ = ports.act(16, Ask::Mode(ON), 0);
    let off = hear(ports.act(16, Ask::Strobe(Some(1)), 0));
    let _ = ports.act(1, Ask::Mode(ON), 0);
    let heard = [
        off,
        hear(ports.act(1, Ask::Strobe(Some(1)), 0)),
        hear(ports.act(1, Ask::Strobe(Some(16)), 0)),
        hear(ports.act(16, Ask::Strobe(Some(1)), 0)),
    ];
    assert!(rt; heard == [Heard::Bad, Heard::Bad, Heard::Bad, Heard::Done]);
    let strobe = ports.strobe(16);
    rise(&mut ports, 16, 5);
    let low = hear(ports.act(16, Ask::In, 0));
    let _ = ports.edge(16, Edge::Rise, 5, true);
    let high = hear(ports.act(16, Ask::In, 0));
    assert!(rt; strobe == Some(1) && low == Heard::Pause && high == Heard::Got(5));
}

#[test]
fn a_port_is_turned_when_all_went_out(rt: HostRuntime) {
    let mut ports = Ports::new();
    let _ = ports.act(22, Ask::Mode(ON), 0);
    let out = hear(ports.act(22, Ask::Out(0x55), 0));
    let stays = see(ports.act(22, Ask::In, 0).pin);
    let drives = fall(&mut ports, 22);
    let driven = hear(ports.act(22, Ask::Peek, 0x11));
    let floats = see(ports.act(22, Ask::In, 0).pin);
    let outside = hear(ports.act(22, Ask::Peek, 0x11));
    rise(&mut ports, 22, 0x11);
    let heard = [out, driven, outside, hear(ports.act(22, Ask::In, 0))];
    assert!(rt;
        heard
            == [
                Heard::Done,
                Heard::Got(0x55),
                Heard::Got(0x11),
                Heard::Got(0x11)
            ]
    );
    assert!(rt; [stays, drives, floats] == [Seen::Stays, Seen::Drives(0x55), Seen::Floats]);
}

#[test]
fn all_ports_have_their_edges_in_a_slot(rt: HostRuntime) {
    let mut ports = Ports::new();
    let clocks = Clocks::new();
    let mut out = Emissions::new();
    let pins = PinView { level: [0; 29] };
    let none_on = ports.edges(&clocks, 2, &pins, 0, &mut out);
    let _ = ports.act(3, Ask::Mode(ON), 0);
    let _ = ports.act(3, Ask::Out(1), 0);
    let _ = ports.act(16, Ask::Mode(ON), 0);
    let _ = ports.act(16, Ask::Strobe(Some(3)), 0);
    let high = ports.high(&pins);
    let rising = ports.edges(&clocks, 4, &pins, high, &mut out);
    let high = ports.high(&pins);
    let between = ports.edges(&clocks, 5, &pins, high, &mut out);
    out.clear();
    let high = ports.high(&pins);
    let falling = ports.edges(&clocks, 6, &pins, high, &mut out);
    assert!(rt; [none_on, rising, between, falling] == [false, false, false, true]);
    assert!(rt; out.events().len() == 1 && out.events()[0].slot == 6 && ports.high(&pins) == 8);
    let high = ports.high(&pins);
    assert!(rt; ports.edges(&clocks, 8, &pins, high, &mut out) && ports.ready() == 0x1_0000);
    assert!(rt; ports.is_full(16) && !ports.is_full(3) && ports.is_idle(3) && ports.is_idle(16));
}

// The reference clock falls in the slots 2, 6, 10 and 14: the last makes the counter 4, and an output for that time leaves.
#[test]
fn an_output_for_a_time_is_foreseen(rt: HostRuntime) {
    let clocks = Clocks::new();
    let mut ports = Ports::new();
    let _ = ports.act(0, Ask::Mode(ON), 0);
    let _ = ports.act(0, Ask::Time(4), 0);
    let _ = ports.act(0, Ask::Out(1), 0);
    assert!(rt; ports.still());
    let near = ports.next_fall(&clocks, 0, 14);
    let first = ports.next_fall(&clocks, 0, 100);
    ports.pass(&clocks, 0, first);
    let level = ports.level(0, 0);
    let driven = fall(&mut ports, 0);
    assert!(rt; near == 14 && first == 14 && level == 0 && driven == Seen::Drives(1));
}
