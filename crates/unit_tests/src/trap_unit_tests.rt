//! How a thread enters its handlers, and how it returns.
use core_state::{Entry0, Status, Thread};
use std::process::Abort;
use trap_unit::{enter_event, enter_interrupt, enter_trap, kret, return_address};
use xs_model::FAST;

// A thread in whose registers each word is another one.
fn some_thread(bits: u8) -> Thread {
    let mut thread = Thread::first(&Entry0 {
        pc: 0x0004_0010,
        cp: 0x0001_0000,
    });
    thread.sr = Status { bits };
    thread.spc = 0x0004_0020;
    thread.ssr = Status { bits: FAST };
    thread.et = 2;
    thread.ed = 3;
    thread.sed = 4;
    thread.kep = 0x0004_0080;
    thread
}

// The thread's pc and status, and those that it keeps; then the number and the datum of its trap, and the datum that it keeps.
fn expect(rt: &impl Abort, thread: &Thread, places: [(u32, u8); 2], data: [u32; 3]) {
    let [(pc, sr), (spc, ssr)] = places;
    assert!(rt;
        thread.pc == pc && thread.sr.bits == sr && thread.spc == spc && thread.ssr.bits == ssr
    );
    assert!(rt; [thread.et, thread.ed, thread.sed] == data);
}

#[test]
fn a_trap_keeps_where_it_came(rt: HostRuntime) {
    let mut thread = some_thread(0xDF);
    enter_trap(&mut thread, 7, 0, 0x0004_0010);
    expect(
        &rt,
        &thread,
        [(0x0004_0080, 0x9C), (0x0004_0010, 0xDF)],
        [7, 0, 3],
    );
    // A kernel call has a handler of its own, and returns to the next instruction.
    let mut thread = some_thread(0);
    let next = return_address(&thread, 15);
    enter_trap(&mut thread, 15, 9, next);
    expect(
        &rt,
        &thread,
        [(0x0004_00C0, 0x10), (0x0004_0014, 0)],
        [15, 9, 3],
    );
    assert!(rt; next == 0x0004_0014 && return_address(&thread, 8) == 0x0004_00C0);
}

#[test]
fn events_and_interrupts_are_entered_and_left(rt: HostRuntime) {
    // An event keeps nothing.
    let mut thread = some_thread(0xDF);
    enter_event(&mut thread, 0x0004_0100, 77);
    expect(
        &rt,
        &thread,
        [(0x0004_0100, 0x9A), (0x0004_0020, 0x80)],
        [2, 77, 4],
    );
    // An interrupt keeps where it came.
    let mut thread = some_thread(0x47);
    enter_interrupt(&mut thread, 0x0004_0100, 77);
    expect(
        &rt,
        &thread,
        [(0x0004_0100, 0x08), (0x0004_0010, 0x47)],
        [2, 77, 3],
    );
    let mut thread = some_thread(0x10);
    kret(&mut thread);
    expect(
        &rt,
        &thread,
        [(0x0004_0020, 0x80), (0x0004_0020, 0x80)],
        [2, 4, 4],
    );
}
