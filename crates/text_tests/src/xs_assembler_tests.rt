//! Sources that are refused, and what a few others stand for.
use crate::refusals::each_is_refused;
use std::alloc::Global;
use std::test::Fail;
use xs_assembler::AsmKind::{
    BadByte, DirectiveNotAllowed, LabelMissing, LabelTwice, NumberOutOfRange, TooManyBytes,
    TooManyInstructions, UnknownName, WrongOperands,
};
use xs_assembler::{AsmError, AsmKind, assemble};
use xs_instructions::{FlowIns, Instr, KernelIns, MemIns, ResIns, ThreadIns, WordIns};

// Where and why a source is refused. None is told of one of a million bytes and more.
fn refusal(alloc: Global, text: &[u8]) -> Option<(u32, AsmKind)> {
    if text.len() >= 1_000_000 {
        return None;
    }
    match assemble(alloc, text) {
        Err(AsmError::Fault { line, kind }) => Some((line, kind)),
        _ => None,
    }
}

static REFUSED: [(&[u8], u32, AsmKind); 80] = [
    // A byte that is not allowed, in comments too.
    (b"nop\nnop # \x7f", 2, BadByte),
    (b"a: a: foo \x00", 1, BadByte),
    (b"nop\r\r\n", 1, BadByte),
    (b"nop\nnop\r", 2, BadByte),
    (b"nop\x0c", 1, BadByte),
    // The least faulty line decides, and then the order of kinds.
    (b"foo r0\na: a:", 1, UnknownName),
    (b"bu gone\nfoo", 1, LabelMissing),
    (b"nop\r\nadd r0, r1\r\nfoo", 2, WrongOperands),
    (b"a: a: foo", 1, LabelTwice),
    (b"a: nop\n\n// none\na: ldc r0, 65536", 4, LabelTwice),
    (b"a: .word\n", 1, DirectiveNotAllowed),
    (b"r0: foo", 1, UnknownName),
    (b"r0: ldc r0, 65536", 1, WrongOperands),
    (b".data\n.word 99999999999, gone", 2, NumberOutOfRange),
    // Names.
    (b"ADD r0, r1, r2", 1, UnknownName),
    (b"sr", 1, UnknownName),
    (b"inpw r1, res[r0], 9", 1, NumberOutOfRange),
    (b"setsr 65536", 1, NumberOutOfRange),
    (b"inshr r1", 1, WrongOperands),
    (b"setclk res[r0], 1", 1, WrongOperands),
    (b"mul r0, r1", 1, WrongOperands),
    (b"5", 1, WrongOperands),
    (b": nop", 1, WrongOperands),
    (b"r0: r0:", 1, WrongOperands),
    (b".set 12ab", 1, DirectiveNotAllowed),
    // Shapes.
    (b"nop nop", 1, WrongOperands),
    (b"nop / nop", 1, WrongOperands),
    (b"ldc r0, 12ab", 1, WrongOperands),
    (b"ldc r0, 1_0", 1, WrongOperands),
    (b"ldc r0, -1", 1, WrongOperands),
    (b"ldc sp, 1", 1, WrongOperands),
    (b"bu 4", 1, WrongOperands),
    (b"bu r0", 1, WrongOperands),
    (b"bu sr", 1, WrongOperands),
    (b"x: ldw r0, r1[x]", 1, WrongOperands),
    (b"x: ldw r0, dp[sp]", 1, WrongOperands),
    (b".data 5", 1, WrongOperands),
    (b".globl a, b", 1, WrongOperands),
    (b".align x", 1, WrongOperands),
    (b".data\n.word", 2, WrongOperands),
    (b".data\n.word --5", 2, WrongOperands),
    (b".data\n.word 1,", 2, WrongOperands),
    (b"a:\n.data\n.word -a", 3, WrongOperands),
    (b"a:\n.data\n.byte a", 3, WrongOperands),
    // Ranges.
    (b"ldc r11, 65536", 1, NumberOutOfRange),
    (
        b"ldc r0, 0x100000000000000000000000000000005",
        1,
        NumberOutOfRange,
    ),
    (b"outct res[r0], 12", 1, NumberOutOfRange),
    (b"shl r0, r1, 9", 1, NumberOutOfRange),
    (b"ldw spc, sp[2]", 1, NumberOutOfRange),
    (b".align 0", 1, NumberOutOfRange),
    (b".align 1025", 1, NumberOutOfRange),
    (b".data\n.space 65537", 2, NumberOutOfRange),
    (b".data\n.word 4294967296", 2, NumberOutOfRange),
    (b".data\n.word -2147483649", 2, NumberOutOfRange),
    (b".data\n.short -32769", 2, NumberOutOfRange),
    (b".data\n.byte 256", 2, NumberOutOfRange),
    // Labels.
    (b"a: nop\na: nop", 2, LabelTwice),
    (b"a: b: a: nop", 1, LabelTwice),
    (b"ldw r0, dp[gone]", 1, LabelMissing),
    (b"ldw r0, cp[gone]", 1, LabelMissing),
    (b"bl gone", 1, LabelMissing),
    (b"bu x\n.data\nx:", 1, NumberOutOfRange),
    (b"ldw r0, dp[y]\n.data\n.byte 1\ny:", 1, NumberOutOfRange),
    (b"ldw r0, cp[y]\n.data\ny: .byte 1", 1, NumberOutOfRange),
    (b"ldap r11, x\n.data\nx:", 1, NumberOutOfRange),
    // What faulty lines still say.
    (b"bu x\nx: 5 y: nop", 2, WrongOperands),
    (b"bu y\nx: 5 y: nop", 1, LabelMissing),
    (b"bu x\nx: # \x01", 1, LabelMissing),
    (b"bu x\n.data 5\nx:", 1, NumberOutOfRange),
    (b"bu x\n.data # \x01\nx:", 2, BadByte),
    (b"ldw r0, dp[x]\n.data\n.byte 256\nx:", 1, NumberOutOfRange),
    (b"ldw r0, dp[x]\n.data\n.byte 1 2\nx:", 3, WrongOperands),
    (b"bu y\nx: r0: y: nop", 2, WrongOperands),
    // Sections.
    (b".data\nfoo 1", 2, DirectiveNotAllowed),
    (b".cp\n.data", 2, DirectiveNotAllowed),
    (b".data\n.data", 2, DirectiveNotAllowed),
    (b".data\n.text 5", 2, DirectiveNotAllowed),
    (b".data\n5", 2, WrongOperands),
    // Too much.
    (b".data\n.space 65536\n.byte 1", 3, TooManyBytes),
    (b".data\n.space 65533\n.cp\n.byte 1", 4, TooManyBytes),
];

#[test]
fn refused(rt: HostRuntime) {
    let alloc = rt.alloc();
    each_is_refused(&rt, &REFUSED, |text| refusal(alloc, text));
}

// A text of the piece so many times, and then the end.
fn repeated(alloc: Global, piece: &[u8], count: u32, end: &[u8]) -> Result<Vec<u8>, Fail> {
    let mut text = Vec::new(alloc);
    for _ in 0..count {
        text.extend_from_slice(piece)?;
    }
    text.extend_from_slice(end)?;
    Ok(text)
}

#[test]
fn at_the_limits_of_code(rt: HostRuntime) -> Result<(), Fail> {
    let alloc = rt.alloc();
    let longest = repeated(alloc, b".align 1024\nnop\n", 16, b".align 1023\nend:\n")?;
    let too_long = repeated(alloc, b"nop\n", 16_385, b"")?;
    assert!(rt; longest.len() < 1_000 && too_long.len() < 100_000);
    let image = assemble(alloc, &longest)?;
    let refused = refusal(alloc, &too_long) == Some((16_385, TooManyInstructions));
    assert!(rt; image.code().len() == 16_368 && refused);
    Ok(())
}

#[test]
fn at_the_limit_of_bytes(rt: HostRuntime) -> Result<(), Fail> {
    let image = assemble(
        rt.alloc(),
        b".data\n.space 65532\n.cp\n.byte 1, 2, 3, 4\nlast:",
    )?;
    assert!(rt;
        image.bytes().len() == 65_536
            && image.cp_at() == 0x0001_fffc
            && image.symbol(0) == Some(("last", 0x0002_0000))
    );
    Ok(())
}

#[test]
fn code(rt: HostRuntime) -> Result<(), Fail> {
    let text =
        b"# from 3\n.globl gone\nmain : ldc r0, 0x3\nloop: sub r0, r0, r1\r\n bt r0, loop\nstw lr , dp [ x ]\n.align 3\nbu end\nend:\nadd: .word:\n.data\n.byte 1\n.align 4\nx:";
    let image = assemble(rt.alloc(), text)?;
    let code = image.code();
    assert_eq!(rt; code.len(), 7);
    assert!(rt; matches!(code[0], Instr::Words(WordIns::Ldc(0, 3))));
    assert!(rt; matches!(code[1], Instr::Words(WordIns::Sub(0, 0, 1))));
    assert!(rt; matches!(code[2], Instr::Flow(FlowIns::Bt(0, 1))));
    assert!(rt; matches!(code[3], Instr::Memory(MemIns::StwDp(15, 1))));
    assert!(rt; matches!(code[4], Instr::Words(WordIns::Nop)));
    assert!(rt; matches!(code[5], Instr::Words(WordIns::Nop)));
    assert!(rt; matches!(code[6], Instr::Flow(FlowIns::Bu(7))));
    for (k, name, address) in [
        (0, "main", 0x0004_0000),
        (1, "loop", 0x0004_0004),
        (2, "end", 0x0004_001c),
        (3, "add", 0x0004_001c),
        (4, ".word", 0x0004_001c),
        (5, "x", 0x0001_0004),
    ] {
        assert_eq!(rt; image.symbol(k), Some((name, address)));
    }
    Ok(())
}

#[test]
fn bytes(rt: HostRuntime) -> Result<(), Fail> {
    let text =
        b"getr r4, 2\noutct res[r4], 0b11\nldw r0, dp[z]\nfreet\n.data\nx: .word 0x12345678, - 5, x\n.short -32768, 65535\n.byte -128, 255, -0\ny: .cp\nz: .word z\n.space 2\n.byte 9";
    let image = assemble(rt.alloc(), text)?;
    assert!(rt;
        matches!(
            image.code(),
            [
                Instr::Resources(ResIns::Getr(4, 2)),
                Instr::Resources(ResIns::OutctImm(4, 3)),
                Instr::Memory(MemIns::LdwDp(0, 5)),
                Instr::Threads(ThreadIns::Freet),
            ]
        ) && image.cp_at() == 0x0001_0014
    );
    assert_eq!(rt;
        image.bytes(),
        [
            0x78, 0x56, 0x34, 0x12, 0xfb, 0xff, 0xff, 0xff, 0, 0, 1, 0, 0, 0x80, 0xff, 0xff, 0x80,
            0xff, 0, 0, 0x14, 0, 1, 0, 0, 0, 9
        ]
        .as_slice()
    );
    Ok(())
}

#[test]
fn rows_of_one_thread(rt: HostRuntime) -> Result<(), Fail> {
    let text =
        b"lmul r0, r1, r2, r3, r4, r5\nldw r3, cp[z]\nldaw r0, r1[ - 2 ]\nbl end\nldw spc, sp[1]\nend:\n.data\n.byte 1\n.cp\n.word 0\nz: .byte 2";
    let image = assemble(rt.alloc(), text)?;
    let code = image.code();
    assert_eq!(rt; code.len(), 5);
    assert!(rt; matches!(code[0], Instr::Words(WordIns::Lmul(0, 1, 2, 3, 4, 5))));
    assert!(rt; matches!(code[1], Instr::Memory(MemIns::LdwCp(3, 1))));
    assert!(rt; matches!(code[2], Instr::Memory(MemIns::LdawBackImm(0, 1, 2))));
    assert!(rt; matches!(code[3], Instr::Flow(FlowIns::Bl(5))));
    assert!(rt; matches!(code[4], Instr::Kernel(KernelIns::LdwSpc)));
    Ok(())
}
