//! Timers and clock blocks: calls in turn, and tables of times and edges, by hand.
use std::process::Abort;
use timers_clocks::{Bad, Clock, Clocks, Edge, TimerState, Timers};

#[test]
fn timers_are_got_and_freed(rt: HostRuntime) {
    let mut timers = Timers::new();
    let before = [
        timers.set_value(0, 7),
        timers.set_after(0, true),
        timers.free(0),
    ];
    assert!(rt; before == [Err(Bad); 3] && !timers.used(0) && !timers.has_conditions());
    for n in 0..11 {
        let want = if n < 10 { Some(n) } else { None };
        assert!(rt; timers.get() == want);
    }
    let set = [timers.set_value(9, 7), timers.set_after(9, true)];
    assert!(rt; set == [Ok(()); 2] && timers.has_conditions() && timers.value(9) == 7);
    let freed = [timers.free(4), timers.free(9)];
    assert!(rt; freed == [Ok(()); 2] && !timers.has_conditions());
    let got = [timers.get(), timers.get(), timers.get()];
    assert!(rt; got == [Some(4), Some(9), None] && timers.used(9) && timers.value(9) == 0);
}

// Its time is 8 from slot 32 on.
#[test]
fn a_timer_that_is_got_keeps_what_a_state_says(rt: HostRuntime) {
    let state = TimerState {
        used: false,
        after: true,
        value: 7,
    };
    let mut timers = Timers::of_state(&[state; 10]);
    let got = timers.get();
    assert!(rt; got == Some(0) && timers.used(0) && !timers.used(1) && timers.value(0) == 7);
    assert!(rt; timers.has_conditions() && !timers.holds(0, 31) && timers.holds(0, 32));
}

#[test]
fn some_timers_are_ready(rt: HostRuntime) {
    let mut timers = Timers::new();
    assert!(rt; timers.ready(0) == 0b11_1111_1111);
    for (n, value) in [(0, 2), (1, 3), (2, 4), (3, 5)] {
        let got = timers.get();
        let set = [timers.set_value(n, value), timers.set_after(n, true)];
        assert!(rt; got == Some(n) && set == [Ok(()); 2]);
    }
    // The time is 0, 4 and 5.
    let ready = [timers.ready(3), timers.ready(16), timers.ready(20)];
    assert!(rt; ready == [0b11_1111_0000, 0b11_1111_0011, 0b11_1111_0111]);
    let set = [timers.set_after(3, false), timers.set_after(0, false)];
    assert!(rt; set == [Ok(()); 2] && timers.ready(3) == 0b11_1111_1001);
    assert!(rt; timers.holds(0, 3) && !timers.holds(1, 3) && timers.holds(255, 3));
}

// Whether a timer with this value is ready in a slot. A slot's time is at most 2^30 - 1.
static READY: [(u32, u32, bool); 24] = [
    (0, 0, false),
    (0, 3, false),
    (0, 4, true),
    (0, 4294967295, true),
    (1, 3, false),
    (1, 7, false),
    (1, 8, true),
    (1073741822, 4294967291, false),
    (1073741822, 4294967292, true),
    (1073741823, 4294967295, false),
    (2147483647, 0, false),
    (2147483648, 0, false),
    (2147483648, 4, false),
    (2147483648, 4294967295, false),
    (2147483649, 3, true),
    (2147483649, 4, false),
    (2147483650, 7, true),
    (2147483650, 8, false),
    (3221225471, 4294967295, false),
    (3221225472, 4294967295, true),
    (4294967294, 0, true),
    (4294967295, 0, true),
    (4294967295, 4, true),
    (4294967295, 4294967295, true),
];

#[test]
fn times_after_values(rt: HostRuntime) {
    for &(value, slot, holds) in &READY {
        let mut timers = Timers::new();
        let got = timers.get();
        let set = [timers.set_value(0, value), timers.set_after(0, true)];
        let ready = timers.ready(slot) & 1 == 1;
        assert!(rt;
            got == Some(0)
                && set == [Ok(()); 2]
                && ready == holds
                && timers.holds(0, slot) == holds,
            "{value} in slot {slot}"
        );
    }
}

#[test]
fn times_of_slots(rt: HostRuntime) {
    for (slot, time) in [
        (0, 0),
        (3, 0),
        (4, 1),
        (4294967291, 1073741822),
        (4294967295, 1073741823),
    ] {
        assert!(rt; Timers::time(slot) == time, "{slot}");
    }
}

// A letter for an edge: R for a rise and F for a fall.
fn letter(edge: Edge) -> char {
    match edge {
        Edge::Rise => 'R',
        Edge::Fall => 'F',
        Edge::None => '.',
    }
}

#[test]
fn clock_blocks_are_turned_on_and_off(rt: HostRuntime) {
    let mut clocks = Clocks::new();
    let before = [
        clocks.turn_off(5),
        clocks.set_div(5, 1),
        clocks.start(5),
        clocks.stop(5),
    ];
    assert!(rt; before == [Err(Bad); 4] && !clocks.used(5));
    clocks.turn_on(5);
    let set = [clocks.set_div(5, 256), clocks.set_div(5, 255)];
    let still = letter(clocks.edge(Clock::Block(5), 0));
    assert!(rt;
        clocks.used(5) && set == [Err(Bad), Ok(())] && clocks.div(5) == 255 && still == '.'
    );
    let started = [clocks.start(5), clocks.start(5), clocks.set_div(5, 1)];
    let runs = letter(clocks.edge(Clock::Block(5), 0));
    assert!(rt; started == [Ok(()), Ok(()), Err(Bad)] && runs == 'R' && clocks.div(5) == 255);
    let stopped = [clocks.stop(5), clocks.stop(5), clocks.set_div(5, 1)];
    let still = letter(clocks.edge(Clock::Block(5), 0));
    assert!(rt; stopped == [Ok(()); 3] && still == '.');
    clocks.turn_on(5);
    let divider = clocks.div(5);
    let off = clocks.turn_off(5);
    assert!(rt; divider == 0 && off == Ok(()) && !clocks.used(5));
}

// Clock block 2 with a divider, as it runs.
fn running(rt: &impl Abort, divider: u32) -> Clocks {
    let mut clocks = Clocks::new();
    clocks.turn_on(2);
    let set = clocks.set_div(2, divider);
    let started = clocks.start(2);
    assert!(rt; set == Ok(()) && started == Ok(()));
    clocks
}

#[test]
fn edges_of_first_periods(rt: HostRuntime) {
    for (divider, wave) in [
        (0, b"R.F.R.F.R.F.R.F.R"),
        (1, b"R...F...R...F...R"),
        (2, b"R.......F.......R"),
    ] {
        let clocks = running(&rt, divider);
        for slot in 0..17 {
            let edge = letter(clocks.edge(Clock::Block(2), slot));
            assert!(rt;
                edge == wave[slot as usize] as char,
                "{divider} in slot {slot}"
            );
        }
    }
    let slow = running(&rt, 255);
    for (clock, slot, edge) in [
        (Clock::Block(2), 0, 'R'),
        (Clock::Block(2), 4, '.'),
        (Clock::Block(2), 1019, '.'),
        (Clock::Block(2), 1020, 'F'),
        (Clock::Block(2), 1021, '.'),
        (Clock::Block(2), 2039, '.'),
        (Clock::Block(2), 2040, 'R'),
        (Clock::Block(2), 2041, '.'),
        (Clock::Block(2), 3060, 'F'),
        (Clock::Block(2), 4080, 'R'),
        (Clock::Block(2), 4294966020, 'F'),
        (Clock::Block(2), 4294967040, 'R'),
        (Clock::Block(2), 4294967295, '.'),
        (Clock::Reference, 0, 'R'),
        (Clock::Reference, 1, '.'),
        (Clock::Reference, 2, 'F'),
        (Clock::Reference, 3, '.'),
        (Clock::Reference, 4, 'R'),
        (Clock::Reference, 4294967292, 'R'),
        (Clock::Reference, 4294967294, 'F'),
    ] {
        assert!(rt; letter(slow.edge(clock, slot)) == edge, "slot {slot}");
    }
}

#[test]
fn moments_and_falling_edges_are_found(rt: HostRuntime) {
    let mut timers = Timers::new();
    let got = timers.get();
    let set = [timers.set_value(0, 10), timers.set_after(0, true)];
    assert!(rt; got == Some(0) && set == [Ok(()); 2]);
    // The time is 11 from slot 44 on.
    let found = [
        timers.ready_from(0, 0, 1000),
        timers.ready_from(0, 0, 40),
        timers.ready_from(0, 50, 1000),
        timers.ready_from(0, 60, 50),
    ];
    assert!(rt; found == [44, 40, 50, 50]);
    assert!(rt; timers.alike_until(0) == 43 && timers.alike_until(44) == u32::MAX);
    // The reference clock falls in slots 2, 6, 10 and so on, block 0 in slots 8, 24, 40; block 1 is off.
    let mut clocks = Clocks::new();
    clocks.turn_on(0);
    let set = [clocks.set_div(0, 2), clocks.start(0)];
    assert!(rt; set == [Ok(()); 2]);
    let falls = [
        clocks.falls(Clock::Reference, 0, 11),
        clocks.falls(Clock::Reference, 3, 6),
        clocks.falls(Clock::Block(0), 8, 41),
        clocks.falls(Clock::Block(1), 0, 1000),
    ];
    assert!(rt; falls == [3, 0, 3, 0]);
    let at = [
        clocks.fall_at(Clock::Reference, 3, 100, 2),
        clocks.fall_at(Clock::Reference, 3, 8, 2),
        clocks.fall_at(Clock::Block(0), 9, 100, 1),
        clocks.fall_at(Clock::Block(1), 0, 100, 1),
    ];
    assert!(rt; at == [10, 8, 24, 100]);
}
