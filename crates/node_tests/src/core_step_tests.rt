//! A node's core, slot by slot.
use core_step::{Arrivals, BadAddress, Core, Emissions, PinView, Run, Wait};
use std::test::Fail;
use test_plans::{bare_node, loaded_node};
use xs_base::Token;
use xs_instructions::{Instr, MemIns, ResIns, ThreadIns, WordIns};

// No link end is there.
const NO_GAPS: [u32; 8] = [0; 8];

// Nothing arrives.
const NOTHING: Arrivals = Arrivals {
    tokens: [None; 8],
    credits: [false; 8],
};

// All pins are low.
const LOW: PinView = PinView { level: [0; 29] };

#[test]
fn boots_with_its_image(rt: HostRuntime) -> Result<(), Fail> {
    let code = [
        Instr::Words(WordIns::Ldc(0, 5)),
        Instr::Threads(ThreadIns::Freet),
    ];
    let plan = loaded_node(rt.alloc(), 0, &code, &[0x34, 0x12], 0x0001_0000, 0)?;
    let core = Core::boot(rt.alloc(), &plan, &NO_GAPS)?;
    assert!(rt;
        matches!(core.run_of(0), Run::Going)
            && matches!(core.run_of(1), Run::Free)
            && matches!(core.run_of(7), Run::Free)
    );
    assert!(rt;
        core.word(0x0001_0000) == Ok(0x1234)
            && core.word(0x0001_0001) == Err(BadAddress)
            && core.word(0x0001_fffc) == Ok(0)
    );
    Ok(())
}

#[test]
fn halts_where_no_code_stands(rt: HostRuntime) -> Result<(), Fail> {
    let plan = bare_node(rt.alloc(), 0);
    let mut core = Core::boot(rt.alloc(), &plan, &NO_GAPS)?;
    let mut out = Emissions::new();
    core.slot(0, &NOTHING, &LOW, &mut out);
    let first = out.events().len();
    let is_halted = matches!(core.run_of(0), Run::Halted);
    core.slot(1, &NOTHING, &LOW, &mut out);
    assert!(rt; is_halted && first == 2 && out.events().is_empty());
    Ok(())
}

// Each link end is there, with a gap of 4 slots.
const FOUR_SLOTS: [u32; 8] = [4; 8];

// What leaves by link end 0, by slots: the header to channel end 1 of node 5, and END.
const SENT: [(u32, Token); 4] = [
    (13, Token::Byte(0)),
    (17, Token::Byte(5)),
    (21, Token::Byte(1)),
    (25, Token::Ctrl(1)),
];

#[test]
fn sends_a_packet(rt: HostRuntime) -> Result<(), Fail> {
    let code = [
        Instr::Resources(ResIns::Getr(0, 2)),
        Instr::Memory(MemIns::LdwDp(1, 0)),
        Instr::Resources(ResIns::Setd(0, 1)),
        Instr::Resources(ResIns::OutctImm(0, 1)),
        Instr::Threads(ThreadIns::Freet),
    ];
    let bytes = [0x02, 0x01, 0x05, 0x00];
    let plan = loaded_node(rt.alloc(), 3, &code, &bytes, 0x0001_0004, 1)?;
    let mut core = Core::boot(rt.alloc(), &plan, &FOUR_SLOTS)?;
    let mut out = Emissions::new();
    let mut sent = 0;
    for slot in 0..30u32 {
        core.slot(slot, &NOTHING, &LOW, &mut out);
        if let Some(token) = out.token(0) {
            assert!(rt;
                sent < SENT.len() && (slot, token) == SENT[sent],
                "slot {slot}"
            );
            sent += 1;
        }
    }
    assert!(rt; sent == SENT.len());
    Ok(())
}

// Thread 0 claims lock 0, gets threads 1 to 4 as slaves, and starts them in slot 60; it goes on in slot 65.
const LOCK_CODE: [Instr; 21] = [
    Instr::Resources(ResIns::Getr(0, 5)),
    Instr::Resources(ResIns::In(1, 0)),
    Instr::Resources(ResIns::Getr(2, 3)),
    Instr::Threads(ThreadIns::Getst(3, 2)),
    Instr::Threads(ThreadIns::Getst(4, 2)),
    Instr::Threads(ThreadIns::Getst(5, 2)),
    Instr::Threads(ThreadIns::Getst(6, 2)),
    Instr::Memory(MemIns::LdwDp(11, 0)),
    Instr::Threads(ThreadIns::InitPc(3, 11)),
    Instr::Threads(ThreadIns::InitPc(4, 11)),
    Instr::Threads(ThreadIns::SetOther(3, 0, 0)),
    Instr::Threads(ThreadIns::SetOther(4, 0, 0)),
    Instr::Memory(MemIns::LdwDp(11, 1)),
    Instr::Threads(ThreadIns::InitPc(5, 11)),
    Instr::Threads(ThreadIns::InitPc(6, 11)),
    Instr::Threads(ThreadIns::Msync(2)),
    Instr::Resources(ResIns::Out(0, 1)),
    // Threads 3 and 4 begin here, and thread 0 comes here.
    Instr::Words(WordIns::Nop),
    Instr::Words(WordIns::Nop),
    // Threads 1 and 2 begin here.
    Instr::Resources(ResIns::In(1, 0)),
    Instr::Resources(ResIns::Out(0, 1)),
];

// Where threads 1 and 2 begin, and where threads 3 and 4 do.
const LOCK_DATA: [u8; 8] = [0x4c, 0x00, 0x04, 0x00, 0x44, 0x00, 0x04, 0x00];

fn waits_for_lock_0(run: Run) -> bool {
    matches!(run, Run::Paused(Wait::Lock { lock: 0 }))
}

// Thread 1 waits from slot 61 on and thread 2 from slot 62 on; threads 3 and 4 go in slots 63 and 64, and thread 0 releases
// the lock in slot 65. Thread 1, whose last issue is the earlier one, owns it in slot 66, so thread 2 may not go in slot
// 67. It owns the lock in slot 71, after thread 1 released it.
#[test]
fn lock_is_for_one_thread_at_a_time(rt: HostRuntime) -> Result<(), Fail> {
    let plan = loaded_node(rt.alloc(), 0, &LOCK_CODE, &LOCK_DATA, 0x0001_0008, 0)?;
    let mut core = Core::boot(rt.alloc(), &plan, &NO_GAPS)?;
    let mut out = Emissions::new();
    for slot in 0..72u32 {
        core.slot(slot, &NOTHING, &LOW, &mut out);
        let first_is_right = waits_for_lock_0(core.run_of(1)) == matches!(slot, 61..=65);
        let second_is_right = waits_for_lock_0(core.run_of(2)) == matches!(slot, 62..=70);
        assert!(rt; first_is_right && second_is_right, "slot {slot}");
    }
    assert!(rt; matches!(core.run_of(1), Run::Going) && matches!(core.run_of(2), Run::Going));
    Ok(())
}

// The time is after 50 from slot 204 on: thread 0 waits for that from slot 16 on, and frees itself four slots later.
#[test]
fn goes_over_the_slots_before_a_timers_moment(rt: HostRuntime) -> Result<(), Fail> {
    let code = [
        Instr::Resources(ResIns::Getr(0, 1)),
        Instr::Words(WordIns::Ldc(1, 50)),
        Instr::Resources(ResIns::SetcImm(0, 9)),
        Instr::Resources(ResIns::Setd(0, 1)),
        Instr::Resources(ResIns::In(2, 0)),
        Instr::Threads(ThreadIns::Freet),
    ];
    let plan = loaded_node(rt.alloc(), 0, &code, &[], 0x0001_0000, 0)?;
    let mut core = Core::boot(rt.alloc(), &plan, &NO_GAPS)?;
    let mut out = Emissions::new();
    for slot in 0..17u32 {
        core.slot(slot, &NOTHING, &LOW, &mut out);
    }
    let waits = matches!(core.run_of(0), Run::Paused(Wait::Timer { timer: 0 }));
    let near = core.quiet_to(17, 100);
    let moment = core.quiet_to(17, 1_000);
    assert!(rt; waits && near == 100 && moment == 204 && !core.may_issue(203));
    core.skip(17, moment, &LOW);
    assert!(rt; core.quiet_to(204, 1_000) == 204 && core.may_issue(204));
    for slot in 204..209u32 {
        let goes = matches!(core.run_of(0), Run::Going);
        core.slot(slot, &NOTHING, &LOW, &mut out);
        assert!(rt; goes == (slot > 204), "slot {slot}");
    }
    assert!(rt; matches!(core.run_of(0), Run::Free));
    Ok(())
}
