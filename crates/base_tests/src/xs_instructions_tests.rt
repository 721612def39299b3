//! Labels, images, and what becomes of a line's name, shapes and values.

use std::alloc::{AllocError, Global};
use std::test::Fail;
use xs_instructions::{
    Image, Instr, Piece, Shape, Symbols, ThreadIns, WordIns, find, fixed, is_reserved, known,
    register_number, same_name, spelling,
};

#[test]
fn looks_up_labels(rt: HostRuntime) -> Result<(), Fail> {
    let alloc = rt.alloc();
    let mut labels = Symbols::of_source(alloc, b"main: table: .end:");
    let defined = [
        labels.define(alloc, b"main", 0)?,
        labels.define(alloc, b"table", 0x0001_0000)?,
        labels.define(alloc, b".end", 0x0004_0010)?,
        labels.define(alloc, b"main", 4)?,
    ];
    assert!(rt; defined == [true, true, true, false] && labels.count() == 3);
    labels.set_address(0, 0x0004_0000);
    let addresses = [
        labels.address(b"main"),
        labels.address(b"table"),
        labels.address(b".end"),
        labels.address(b"mai"),
        labels.address(b"\xff"),
    ];
    let numbers = [
        labels.number(b".end"),
        labels.number(b"end"),
        labels.number(b"\xff"),
    ];
    assert_eq!(rt;
        addresses,
        [
            Some(0x0004_0000),
            Some(0x0001_0000),
            Some(0x0004_0010),
            None,
            None
        ]
    );
    assert!(rt;
        numbers == [Some(2), None, None]
            && labels.at(1) == Some(("table", 0x0001_0000))
            && labels.at(3).is_none()
    );
    Ok(())
}

#[test]
fn begins_at_main(rt: HostRuntime) -> Result<(), Fail> {
    let mut code = Vec::new(rt.alloc());
    code.push(Instr::Words(WordIns::Nop))?;
    code.push(Instr::Threads(ThreadIns::Freet))?;
    let mut bytes = Vec::new(rt.alloc());
    bytes.push(7)?;
    let mut labels = Symbols::of_source(rt.alloc(), b"");
    labels.define(rt.alloc(), b"main", 0x0004_0004)?;
    let image = Image::of(code, bytes, 0x0001_0004, labels);
    let last = image.at(0x0004_0004);
    assert!(rt;
        image.entry() == 0x0004_0004
            && matches!(last, Some(Instr::Threads(ThreadIns::Freet)))
            && image.at(0x0004_0008).is_none()
            && image.code().len() == 2
    );
    assert!(rt;
        image.bytes() == [7].as_slice()
            && image.cp_at() == 0x0001_0004
            && image.symbol(0) == Some(("main", 0x0004_0004))
            && image.symbol(1).is_none()
    );
    Ok(())
}

#[test]
fn begins_at_the_code_without_main(rt: HostRuntime) -> Result<(), Fail> {
    let image = Image::of(
        Vec::new(rt.alloc()),
        Vec::new(rt.alloc()),
        0x0001_0000,
        Symbols::of_source(rt.alloc(), b""),
    );
    assert_eq!(rt; image.entry(), 0x0004_0000);
    Ok(())
}

#[test]
fn knows_names(rt: HostRuntime) {
    assert!(rt; is_reserved(b"sp") && !is_reserved(b"main"));
    assert!(rt; same_name(b"sp", b"sp") && !same_name(b"sp", b"SP"));
    assert!(rt; known(b"init") && !known(b"ini") && !known(b""));
    assert!(rt; register_number(b"lr") == Some(15) && register_number(b"r12").is_none());
    assert!(rt; fixed(b"-") == Some(15) && fixed(b"sr").is_none());
}

/// What becomes of a line with this name, these shapes and these values: the text of the instruction, in which places
/// of labels follow an `@`, or why there is none.
fn outcome(
    alloc: Global,
    name: &[u8],
    shapes: &[Shape],
    values: &[u32],
) -> Result<String, AllocError> {
    let Some(row) = find(name, shapes) else {
        return String::from_str(alloc, "no row");
    };
    match row.build(values) {
        Some(ins) => text_of(alloc, spelling(ins).as_slice()),
        None => String::from_str(alloc, "out of range"),
    }
}

fn text_of(alloc: Global, pieces: &[Piece]) -> Result<String, AllocError> {
    let mut text = String::new(alloc);
    for piece in pieces {
        let part = match piece {
            Piece::Word(word) => format!(in alloc; " {word}")?,
            Piece::Reg(n) => format!(in alloc; " r{n}")?,
            Piece::Num(n) => format!(in alloc; " {n}")?,
            Piece::Place(place) => format!(in alloc; " @{place}")?,
        };
        text.push_str(&part)?;
    }
    Ok(text)
}

const R0: Shape = Shape::Reg(0);

const R1: Shape = Shape::Reg(1);

const R2: Shape = Shape::Reg(2);

const R3: Shape = Shape::Reg(3);

const R5: Shape = Shape::Reg(5);

const R10: Shape = Shape::Reg(10);

const R11: Shape = Shape::Reg(11);

const CP: Shape = Shape::Reg(12);

const DP: Shape = Shape::Reg(13);

const SP: Shape = Shape::Reg(14);

const LR: Shape = Shape::Reg(15);

const RES: Shape = Shape::Word(0);

const T: Shape = Shape::Word(1);

const KEP: Shape = Shape::Word(3);

const SPC: Shape = Shape::Word(8);

const COMMA: Shape = Shape::Word(11);

const COLON: Shape = Shape::Word(12);

const LEFT: Shape = Shape::Word(13);

const RIGHT: Shape = Shape::Word(14);

const MINUS: Shape = Shape::Word(15);

const NUM: Shape = Shape::Num;

struct Case {
    name: &'static [u8],
    shapes: &'static [Shape],
    values: &'static [u32],
    expected: &'static str,
}

static CASES: [Case; 26] = [
    Case {
        name: b"add",
        shapes: &[R0, COMMA, R11, COMMA, R5],
        values: &[0, 11, 5],
        expected: " add r0 , r11 , r5",
    },
    Case {
        name: b"add",
        shapes: &[R0, COMMA, R1, COMMA, NUM],
        values: &[0, 1, 11],
        expected: " add r0 , r1 , 11",
    },
    Case {
        name: b"add",
        shapes: &[R0, COMMA, R1, COMMA, NUM],
        values: &[0, 1, 12],
        expected: "out of range",
    },
    Case {
        name: b"shl",
        shapes: &[R0, COMMA, R1, COMMA, NUM],
        values: &[0, 1, 8],
        expected: " shl r0 , r1 , 8",
    },
    Case {
        name: b"shl",
        shapes: &[R0, COMMA, R1, COMMA, NUM],
        values: &[0, 1, 9],
        expected: "out of range",
    },
    Case {
        name: b"shl",
        shapes: &[R0, COMMA, R1, COMMA, NUM],
        values: &[0, 1, 0],
        expected: "out of range",
    },
    Case {
        name: b"shr",
        shapes: &[R0, COMMA, R1, COMMA, NUM],
        values: &[0, 1, 32],
        expected: " shr r0 , r1 , 32",
    },
    Case {
        name: b"mul",
        shapes: &[R0, COMMA, R1, COMMA, NUM],
        values: &[0, 1, 2],
        expected: "no row",
    },
    Case {
        name: b"add",
        shapes: &[CP, COMMA, R1, COMMA, R2],
        values: &[12, 1, 2],
        expected: "no row",
    },
    Case {
        name: b"ldc",
        shapes: &[R3, COMMA, NUM],
        values: &[3, 65_535],
        expected: " ldc r3 , 65535",
    },
    Case {
        name: b"ldc",
        shapes: &[R3, COMMA, NUM],
        values: &[3, 65_536],
        expected: "out of range",
    },
    Case {
        name: b"ldc",
        shapes: &[R3, COMMA, NUM],
        values: &[3, 1, 1],
        expected: "out of range",
    },
    Case {
        name: b"ldw",
        shapes: &[LR, COMMA, DP, LEFT, NUM, RIGHT],
        values: &[15, 7],
        expected: " ldw r15 , r13 [ 7 ]",
    },
    Case {
        name: b"ldw",
        shapes: &[LR, COMMA, CP, LEFT, NUM, RIGHT],
        values: &[15, 0],
        expected: "no row",
    },
    Case {
        name: b"ldw",
        shapes: &[SPC, COMMA, SP, LEFT, NUM, RIGHT],
        values: &[1],
        expected: " ldw spc , r14 [ 1 ]",
    },
    Case {
        name: b"ldw",
        shapes: &[SPC, COMMA, SP, LEFT, NUM, RIGHT],
        values: &[2],
        expected: "out of range",
    },
    Case {
        name: b"set",
        shapes: &[KEP, COMMA, R10],
        values: &[],
        expected: "no row",
    },
    Case {
        name: b"ldap",
        shapes: &[R11, COMMA, Shape::Label],
        values: &[65_535],
        expected: " ldap r11 , @65535",
    },
    Case {
        name: b"bu",
        shapes: &[NUM],
        values: &[4],
        expected: "no row",
    },
    Case {
        name: b"outct",
        shapes: &[RES, LEFT, R0, RIGHT, COMMA, NUM],
        values: &[0, 12],
        expected: "out of range",
    },
    Case {
        name: b"ldaw",
        shapes: &[R0, COMMA, R1, LEFT, MINUS, R2, RIGHT],
        values: &[0, 1, 2],
        expected: " ldaw r0 , r1 [ - r2 ]",
    },
    Case {
        name: b"init",
        shapes: &[T, LEFT, R1, RIGHT, COLON, SP, COMMA, R2],
        values: &[1, 2],
        expected: " init t [ r1 ] : r14 , r2",
    },
    Case {
        name: b"inpw",
        shapes: &[R1, COMMA, RES, LEFT, R0, RIGHT, COMMA, NUM],
        values: &[1, 0, 24],
        expected: " inpw r1 , res [ r0 ] , 24",
    },
    Case {
        name: b"outpw",
        shapes: &[RES, LEFT, R0, RIGHT, COMMA, R1, COMMA, NUM],
        values: &[0, 1, 9],
        expected: "out of range",
    },
    Case {
        name: b"outshr",
        shapes: &[RES, LEFT, R0, RIGHT, COMMA, R1],
        values: &[0, 1],
        expected: " outshr res [ r0 ] , r1",
    },
    Case {
        name: b"setclk",
        shapes: &[RES, LEFT, R0, RIGHT, COMMA, NUM],
        values: &[0, 1],
        expected: "no row",
    },
];

#[test]
fn finds_builds_and_spells(rt: HostRuntime) -> Result<(), Fail> {
    for case in &CASES {
        let text = outcome(rt.alloc(), case.name, case.shapes, case.values)?;
        assert_eq!(rt; text.as_str(), case.expected);
    }
    Ok(())
}
