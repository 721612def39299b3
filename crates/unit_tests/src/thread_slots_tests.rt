//! Who is picked, slot by slot.
use std::process::Abort;
use thread_slots::Slots;

// Picks in each of these slots with the same threads able, and marks the issue of each that is picked.
fn picks(rt: &impl Abort, able: u8, wanted: &[(u32, Option<u8>)]) {
    let mut slots = Slots::new();
    for &(slot, want) in wanted {
        let picked = slots.pick(able, slot);
        let mut marked = true;
        if let Some(thread) = picked {
            slots.mark_issue(thread, slot);
            marked = slots.last(thread) == Some(slot);
        }
        assert!(rt; picked == want && marked, "in slot {slot}");
    }
}

// One thread issues in every fourth slot.
static TURNS_OF_ONE: [(u32, Option<u8>); 7] = [
    (0, Some(0)),
    (1, None),
    (2, None),
    (3, None),
    (4, Some(0)),
    (5, None),
    (8, Some(0)),
];

static TURNS_OF_FOUR: [(u32, Option<u8>); 6] = [
    (0, Some(0)),
    (1, Some(1)),
    (2, Some(2)),
    (3, Some(3)),
    (4, Some(0)),
    (5, Some(1)),
];

static TURNS_OF_FIVE: [(u32, Option<u8>); 7] = [
    (0, Some(0)),
    (1, Some(1)),
    (2, Some(2)),
    (3, Some(3)),
    (4, Some(4)),
    (5, Some(0)),
    (6, Some(1)),
];

static TURNS_OF_EIGHT: [(u32, Option<u8>); 10] = [
    (0, Some(0)),
    (1, Some(1)),
    (2, Some(2)),
    (3, Some(3)),
    (4, Some(4)),
    (5, Some(5)),
    (6, Some(6)),
    (7, Some(7)),
    (8, Some(0)),
    (9, Some(1)),
];

static TURNS_OF_SOME: [(u32, Option<u8>); 7] = [
    (0, Some(1)),
    (1, Some(2)),
    (2, Some(3)),
    (3, Some(5)),
    (4, Some(6)),
    (5, Some(1)),
    (6, Some(2)),
];

#[test]
fn threads_take_turns(rt: HostRuntime) {
    picks(&rt, 0b0000_0001, &TURNS_OF_ONE);
    picks(&rt, 0b0000_1111, &TURNS_OF_FOUR);
    picks(&rt, 0b0001_1111, &TURNS_OF_FIVE);
    picks(&rt, 0b1111_1111, &TURNS_OF_EIGHT);
    picks(&rt, 0b0110_1110, &TURNS_OF_SOME);
    picks(&rt, 0, &[(0, None), (4, None)]);
    assert!(rt; Slots::new().last(7) == None);
}

// The last issues of these threads, each marked in its slot.
fn marked(issues: &[(u8, u32)]) -> Slots {
    let mut slots = Slots::new();
    for &(thread, slot) in issues {
        slots.mark_issue(thread & 7, slot);
    }
    slots
}

#[test]
fn among_equals_the_lowest_number_is_picked(rt: HostRuntime) {
    let slots = marked(&[(6, 9), (2, 9), (4, 9), (1, 10), (0, 12)]);
    let cases = [
        (0b0101_0100, 13, Some(2)),
        (0b0101_0000, 13, Some(4)),
        (0b0101_0111, 13, Some(2)),
        (0b0100_0010, 13, Some(6)),
        (0b0000_0010, 13, None),
        (0b0000_0011, 14, Some(1)),
        (0b0101_0100, 12, None),
        (0b1010_1100, 12, Some(3)),
        (0b1111_1111, 12, Some(3)),
    ];
    for &(able, slot, want) in &cases {
        assert!(rt;
            slots.pick(able, slot) == want,
            "of {able:08b} in slot {slot}"
        );
    }
}

#[test]
fn the_last_slots_there_are(rt: HostRuntime) {
    let late = marked(&[(0, u32::MAX - 2), (1, u32::MAX - 4), (2, u32::MAX - 3)]);
    let picked = [
        late.pick(0b0000_0001, u32::MAX),
        late.pick(0b0000_0011, u32::MAX),
        late.pick(0b0000_0101, u32::MAX),
    ];
    assert!(rt; picked == [None, Some(1), None] && late.last(0) == Some(u32::MAX - 2));
    let last = marked(&[(3, u32::MAX)]);
    assert!(rt; last.pick(0b0000_1000, u32::MAX) == None && last.last(3) == Some(u32::MAX));
}
