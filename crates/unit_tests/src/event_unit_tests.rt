//! What is enabled, and what a thread takes of it: calls in turn, by hand.
ghost use Rattle.std.specs.Prelude.{◌<◌};
ghost use Rattle.event_unit.specs.Ready.{IsRes};

use event_unit::{Choice, Events, Ready, Res};
use std::process::Abort;
use xs_model::{EEBLE, FAST, IEBLE, Status};

const BOTH: u8 = EEBLE | IEBLE;

const NONE: Ready = Ready {
    chans: 0,
    timers: 0,
    ports: 0,
};

const ALL: Ready = Ready {
    chans: 0xFFFF_FFFF,
    timers: 0xFFFF,
    ports: 0xFFFF_FFFF,
};

const CHANS: Ready = Ready {
    chans: 0xFFFF_FFFF,
    ..NONE
};

const TIMERS: Ready = Ready {
    timers: 0x3FF,
    ..NONE
};

const PORTS: Ready = Ready {
    ports: 0x1FFF_FFFF,
    ..NONE
};

const CHAN_9: Ready = Ready {
    chans: 1 << 9,
    ..NONE
};

const CHAN_31: Ready = Ready {
    chans: 1 << 31,
    ..NONE
};

// What a thread takes with a status where so much is ready.
type Row = (u8, u8, Ready, Option<Choice>);

fn set_up(events: &mut Events, r: Res, th: u8, interrupt: bool, vector: u32)
    requires resource { IsRes r }
    requires thread { th < 8 }
{
    events.set_vector(r, vector);
    events.set_env(r, vector ^ 0xFF);
    events.set_mode(r, interrupt);
    events.enable(r, th, true);
}

fn events_of_two_threads() -> Events {
    let mut events = Events::new();
    set_up(&mut events, Res::Chan(9), 1, false, 9);
    set_up(&mut events, Res::Chan(4), 1, false, 4);
    set_up(&mut events, Res::Timer(0), 1, false, 100);
    set_up(&mut events, Res::Timer(9), 1, true, 109);
    set_up(&mut events, Res::Port(3), 1, false, 203);
    set_up(&mut events, Res::Port(28), 1, true, 228);
    set_up(&mut events, Res::Chan(31), 7, false, 31);
    events
}

fn event(vector: u32) -> Option<Choice> {
    Some(Choice {
        interrupt: false,
        vector,
        env: vector ^ 0xFF,
    })
}

fn interrupt(vector: u32) -> Option<Choice> {
    Some(Choice {
        interrupt: true,
        vector,
        env: vector ^ 0xFF,
    })
}

fn choose(events: &Events, rows: &[Row], rt: &impl Abort) {
    for (th, bits, ready, want) in rows {
        let choice = events.choose(*th % 8, Status { bits: *bits }, *ready);
        assert!(rt; choice == *want, "thread {th}, status {bits:x}");
    }
}

#[test]
fn interrupts_come_before_events_and_low_numbers_before_high_ones(rt: HostRuntime) {
    choose(&Events::new(), &[(1, BOTH, ALL, None)], &rt);
    let rows = [
        (1, BOTH, ALL, interrupt(109)),
        (1, BOTH, PORTS, interrupt(228)),
        (1, BOTH, CHANS, event(4)),
        (1, BOTH, NONE, None),
        (1, IEBLE, CHANS, None),
        (1, EEBLE, ALL, event(4)),
        (1, EEBLE, CHAN_9, event(9)),
        (1, EEBLE, CHAN_31, None),
        (1, EEBLE, TIMERS, event(100)),
        (1, EEBLE, PORTS, event(203)),
        (1, FAST, ALL, None),
        (7, BOTH, ALL, event(31)),
        (7, IEBLE, ALL, None),
        (0, BOTH, ALL, None),
    ];
    choose(&events_of_two_threads(), &rows, &rt);
}

#[test]
fn threads_wake_for_what_they_enabled(rt: HostRuntime) {
    let events = events_of_two_threads();
    let statuses = |first: u8, last: u8| {
        let mut statuses = [Status { bits: FAST }; 8];
        statuses[1] = Status { bits: first };
        statuses[7] = Status { bits: last };
        statuses
    };
    let rows = [
        (statuses(BOTH, BOTH), ALL, 0x82),
        (statuses(IEBLE, IEBLE), ALL, 0x02),
        (statuses(IEBLE, EEBLE), CHANS, 0x80),
        (statuses(EEBLE, EEBLE), TIMERS, 0x02),
        (statuses(BOTH, BOTH), NONE, 0),
        ([Status { bits: BOTH }; 8], ALL, 0x82),
    ];
    for (statuses, ready, mask) in &rows {
        assert!(rt; events.wake_mask(statuses, *ready) == *mask, "{mask:x}");
    }
}

#[test]
fn what_is_set_changes_and_goes(rt: HostRuntime) {
    let mut events = events_of_two_threads();
    events.set_mode(Res::Chan(4), true);
    choose(
        &events,
        &[(1, BOTH, ALL, interrupt(4)), (1, EEBLE, ALL, event(9))],
        &rt,
    );
    events.enable(Res::Chan(4), 7, true);
    choose(
        &events,
        &[(1, BOTH, ALL, interrupt(109)), (7, BOTH, ALL, interrupt(4))],
        &rt,
    );
    events.enable(Res::Chan(4), 0, false);
    choose(&events, &[(7, BOTH, ALL, event(31))], &rt);
    events.clear(1);
    choose(
        &events,
        &[
            (1, BOTH, ALL, interrupt(109)),
            (1, EEBLE, ALL, None),
            (7, BOTH, ALL, event(31)),
        ],
        &rt,
    );
    events.enable(Res::Timer(0), 1, true);
    choose(&events, &[(1, EEBLE, ALL, event(100))], &rt);
    events.drop_thread(1);
    choose(
        &events,
        &[(1, BOTH, ALL, None), (7, BOTH, ALL, event(31))],
        &rt,
    );
    events.forget(Res::Chan(31));
    choose(&events, &[(7, BOTH, ALL, None)], &rt);
    events.forget(Res::Timer(9));
    events.enable(Res::Timer(9), 2, true);
    let fresh = Choice {
        interrupt: false,
        vector: 0,
        env: 0,
    };
    choose(&events, &[(2, BOTH, ALL, Some(fresh))], &rt);
}
