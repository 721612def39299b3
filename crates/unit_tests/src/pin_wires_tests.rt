//! What wires are told of the pins of ports, and what pins show by them, by hand. Port 16 is 4A.
use pin_wires::{Drives, Levels};
use std::process::Abort;
use xs_model::PinView;

// Looks at ports in turn: the port, what it drives, and what a wire is told.
static LOOKS: [(u8, Option<u32>, Option<u32>); 11] = [
    (16, None, None),
    (16, Some(0), None),
    (16, Some(10), Some(10)),
    (16, Some(10), None),
    (0, Some(1), Some(1)),
    (16, Some(3), Some(3)),
    (16, None, Some(0)),
    (16, None, None),
    (0, Some(1), None),
    (28, Some(u32::MAX), Some(u32::MAX)),
    (28, Some(0), Some(0)),
];

#[test]
fn changes_are_told_once(rt: HostRuntime) {
    let mut drives = Drives::new();
    for &(port, now, want) in &LOOKS {
        let told = drives.change(port, now);
        assert!(rt; told == want, "port {port}");
    }
}

// Levels by port: what a pin shows where no wire ends is 1, and where one ends what came last.
static SHOWN: [(usize, u32); 8] = [
    (0, 1),
    (1, 0),
    (15, 1),
    (16, 5),
    (17, 1),
    (26, 1),
    (27, 0xffff),
    (28, u32::MAX),
];

#[test]
fn wires_show_over_the_script(rt: HostRuntime) {
    let mut levels = Levels::new();
    for (port, value) in [(16, 10), (16, 5), (17, 9), (27, 0xffff), (28, u32::MAX)] {
        levels.come(port, value);
    }
    let mut view = PinView { level: [1; 29] };
    // Ports 1, 16, 27 and 28, and three bits that are of no port.
    levels.over(0xf801_0002, &mut view);
    for &(port, want) in &SHOWN {
        assert!(rt; view.level.get(port).copied() == Some(want), "port {port}");
    }
}
