//! The rows on memory, flow of control and the kernel: that they are done, and that one that traps leaves all as it was.
use core_memory::Ram;
use core_state::{Entry0, Outcome, Status, Thread};
use flow_unit::flow;
use std::test::Fail;
use xs_instructions::{FlowIns, Instr, KernelIns, MemIns};

// The numbers of a trap, or none where the row was done.
fn trap_of(outcome: Outcome) -> Option<(u32, u32)> {
    match outcome {
        Outcome::Trap { et, ed } => Some((et, ed)),
        _ => None,
    }
}

// Thread 0 as it starts, with the constant pool at the memory's beginning.
fn first_thread() -> Thread {
    Thread::first(&Entry0 {
        pc: 0x0004_0000,
        cp: 0x0001_0000,
    })
}

#[test]
fn words_halves_and_bytes_are_loaded(rt: HostRuntime) -> Result<(), Fail> {
    let mut ram = Ram::new(rt.alloc(), &[1, 2, 3, 4, 0xfe, 0xff, 0x80, 0])?;
    let mut thread = first_thread();
    thread.r[1] = 0x0001_0000;
    thread.r[2] = 2;
    thread.r[3] = 6;
    let rows = [
        (MemIns::LdwDp(0, 0), 0x0403_0201),
        (MemIns::LdwImm(0, 1, 1), 0x0080_fffe),
        (MemIns::Ld16s(0, 1, 2), 0xffff_fffe),
        (MemIns::Ld8u(0, 1, 3), 0x80),
        (MemIns::LdawBack(0, 3, 2), 0xffff_fffe),
        (MemIns::LdawSp(0, 1), 0x0002_0000),
    ];
    for (ins, word) in rows {
        let trap = trap_of(flow(&mut thread, 0, &mut ram, Instr::Memory(ins)));
        assert!(rt; trap == None && thread.r[0] == word, "{word}");
    }
    assert!(rt; thread.pc == 0x0004_0018);
    Ok(())
}

#[test]
fn a_function_is_called_entered_and_left(rt: HostRuntime) -> Result<(), Fail> {
    let mut ram = Ram::new(rt.alloc(), &[])?;
    let mut thread = first_thread();
    let rows = [
        (FlowIns::Bl(16), 0x0004_0040, 0x0001_fffc),
        (FlowIns::Entsp(3), 0x0004_0044, 0x0001_fff0),
        (FlowIns::Bl(32), 0x0004_0080, 0x0001_fff0),
        (FlowIns::Retsp(0), 0x0004_0048, 0x0001_fff0),
        (FlowIns::Retsp(3), 0x0004_0004, 0x0001_fffc),
    ];
    for (ins, pc, sp) in rows {
        let trap = trap_of(flow(&mut thread, 0, &mut ram, Instr::Flow(ins)));
        assert!(rt;
            trap == None && thread.pc == pc && thread.sp == sp,
            "{pc:x}"
        );
    }
    assert!(rt; ram.load32(0x0001_fffc)? == 0x0004_0004);
    Ok(())
}

#[test]
fn the_kernels_stack_is_entered_and_left(rt: HostRuntime) -> Result<(), Fail> {
    let mut ram = Ram::new(rt.alloc(), &[])?;
    let mut thread = first_thread();
    thread.ksp = 0x0001_8000;
    let rows = [
        (KernelIns::Kentsp(2), 0x0001_7ff8),
        (KernelIns::GetId, 0x0001_7ff8),
        (KernelIns::Krestsp(2), 0x0001_fffc),
    ];
    for (ins, sp) in rows {
        let trap = trap_of(flow(&mut thread, 5, &mut ram, Instr::Kernel(ins)));
        assert!(rt; trap == None && thread.sp == sp, "{sp:x}");
    }
    let words = [thread.r[11], thread.ksp, ram.load32(0x0001_8000)?];
    let call = flow(
        &mut thread,
        5,
        &mut ram,
        Instr::Kernel(KernelIns::KcallImm(9)),
    );
    assert!(rt; words == [5, 0x0001_8000, 0x0001_fffc] && trap_of(call) == Some((15, 9)));
    Ok(())
}

#[test]
fn status_bits_are_set_and_cleared(rt: HostRuntime) -> Result<(), Fail> {
    let mut ram = Ram::new(rt.alloc(), &[])?;
    let mut thread = first_thread();
    let rows = [
        (KernelIns::Setsr(0xffff), 0x00, 0x9f),
        (KernelIns::Setsr(0x0102), 0x41, 0x43),
        (KernelIns::Clrsr(0xffff), 0xdf, 0x40),
        (KernelIns::Clrsr(0x0102), 0x93, 0x91),
    ];
    for (ins, before, after) in rows {
        thread.sr = Status { bits: before };
        let trap = trap_of(flow(&mut thread, 0, &mut ram, Instr::Kernel(ins)));
        assert!(rt; trap == None && thread.sr.bits == after, "{before:x}");
    }
    assert!(rt; thread.pc == 0x0004_0010);
    Ok(())
}

#[test]
fn a_row_that_traps_changes_nothing(rt: HostRuntime) -> Result<(), Fail> {
    let mut ram = Ram::new(rt.alloc(), &[1, 2, 3, 4])?;
    let mut thread = first_thread();
    thread.sp = 0x0001_0002;
    thread.ksp = 0x0002_0000;
    let rows = [
        (Instr::Flow(FlowIns::Entsp(1)), 0x0001_0002),
        (Instr::Flow(FlowIns::Retsp(1)), 0x0001_0006),
        (Instr::Kernel(KernelIns::Kentsp(1)), 0x0002_0000),
        (Instr::Kernel(KernelIns::Krestsp(1)), 0x0001_0006),
        (Instr::Kernel(KernelIns::StwSpc), 0x0001_0006),
    ];
    for (ins, at) in rows {
        let trap = trap_of(flow(&mut thread, 0, &mut ram, ins));
        let kept = [
            thread.sp,
            thread.ksp,
            thread.lr,
            thread.pc,
            ram.load32(0x0001_0000)?,
        ];
        assert!(rt;
            trap == Some((5, at)) && kept == [0x0001_0002, 0x0002_0000, 0, 0x0004_0000, 0x0403_0201]
        );
    }
    Ok(())
}
