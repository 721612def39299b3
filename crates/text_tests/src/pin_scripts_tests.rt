//! Scripts that are read, and what pins show by them.
use crate::refusals::each_is_refused;
use pin_scripts::PinKind::{
    BadLine, NoSuchNode, NoSuchPort, PinGivenTwice, SlotFalls, ValueTooWide,
};
use pin_scripts::{PinError, PinKind, Script, read_pins};
use std::alloc::Global;
use std::test::Fail;
use xs_model::PinView;

// Where and why a text is refused in a system of the nodes 0 and 7. None is told of one of a million bytes and more.
fn refusal(alloc: Global, text: &[u8]) -> Option<(u32, PinKind)> {
    if text.len() >= 1_000_000 {
        return None;
    }
    match read_pins(alloc, text, &[0, 7]) {
        Err(PinError::Fault { line, kind }) => Some((line, kind)),
        _ => None,
    }
}

static REFUSED: [(&[u8], u32, PinKind); 20] = [
    (b"5 0:A4 1", 1, BadLine),
    (b"5 0:4 1", 1, BadLine),
    (b"5 0:4AA 1", 1, BadLine),
    (b"5 0:0x4A 1", 1, BadLine),
    (b"5 0:4A 4294967296", 1, BadLine),
    (b"5 4294967296:4A 1", 1, BadLine),
    (b"5 0:4A 0X1", 1, BadLine),
    (b"5 0:4A -1", 1, BadLine),
    (b"# \x01", 1, BadLine),
    (b"5 0:4A 1\r\r\n", 1, BadLine),
    (b"9 0:4A 1\n\n8 7:1A 1", 3, SlotFalls),
    (b"5 0:4G 1", 1, NoSuchPort),
    (b"5 0:2A 1", 1, NoSuchPort),
    (b"5 0:4a 1", 1, NoSuchPort),
    (b"5 0:04A 1", 1, NoSuchPort),
    (b"5 0:1A 2", 1, ValueTooWide),
    (b"9 0:4A 1\n8 0:4A 16", 2, ValueTooWide),
    (b"5 0:4G 16", 1, NoSuchPort),
    (b"5 100:4G 16", 1, NoSuchNode),
    (b"5 0:4A 1\n5 0:4A 1", 2, PinGivenTwice),
];

#[test]
fn refused(rt: HostRuntime) {
    let alloc = rt.alloc();
    each_is_refused(&rt, &REFUSED, |text| refusal(alloc, text));
}

// What the pins of a port of a node show in a slot.
fn level(script: &Script, node: u8, slot: u32, port: usize) -> Option<u32> {
    let mut view = PinView { level: [77; 29] };
    script.view(node, slot, &mut view);
    view.level.get(port).copied()
}

// Takes what may be sent to other threads and shared with them.
fn expect_sendable<T: Send + Sync>(_value: &T) {}

#[test]
fn levels(rt: HostRuntime) -> Result<(), Fail> {
    let text = b"0x5 0:4A 9\r\n 5 7:4A 2 # both\n\n8 0:1A 1\n10 0:4A 0x4";
    let script = read_pins(rt.alloc(), text, &[0, 7])?;
    expect_sendable(&script);
    for (node, slot, port, shown) in [
        (0, 4, 16, 0),
        (0, 5, 16, 9),
        (0, 9, 16, 9),
        (0, 10, 16, 4),
        (0, u32::MAX, 16, 4),
        (7, 10, 16, 2),
        (7, 10, 0, 0),
        (3, 10, 16, 0),
    ] {
        assert_eq!(rt; level(&script, node, slot, port), Some(shown));
    }
    let changes = [
        script.next_change(0, 0),
        script.next_change(0, 5),
        script.next_change(0, 10),
        script.next_change(7, 5),
        script.next_change(3, 0),
    ];
    assert_eq!(rt; changes, [Some(5), Some(8), None, None, None]);
    let count = script.lines().len();
    let share = script.clone()?;
    drop(script);
    let shared = level(&share, 7, 10, 16);
    assert!(rt; count == 4 && share.lines().len() == 4 && shared == Some(2));
    let empty = Script::empty();
    let nothing = level(&empty.clone()?, 0, 9, 16);
    assert!(rt; nothing == Some(0) && empty.next_change(0, 0).is_none());
    Ok(())
}

// So many lines would take minutes, were all of them walked for each line or for each slot.
#[test]
fn many_lines(rt: HostRuntime) -> Result<(), Fail> {
    let alloc = rt.alloc();
    let mut text = String::new(alloc);
    for slot in 0..50_000u32 {
        let line = format!(in alloc; "{} 7:4A {}\n", slot, slot % 16)?;
        text.push_str(&line)?;
    }
    assert!(rt; text.len() < 4_194_304);
    let script = read_pins(alloc, text.as_bytes(), &[0, 7])?;
    for slot in 0..50_000u32 {
        assert_eq!(rt; level(&script, 7, slot, 16), Some(slot % 16));
    }
    assert_eq!(rt; script.next_change(7, 49_998), Some(49_999));
    Ok(())
}
