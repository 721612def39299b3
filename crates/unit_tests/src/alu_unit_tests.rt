//! The rows on words, at the edges of their operands.
ghost use Rattle.xs_instructions.specs.Instr.{WordsInRange};

use alu_unit::alu;
use core_state::{Outcome, Thread};
use std::process::Abort;
use xs_instructions::WordIns;
use xs_model::traps::ARITHMETIC;

// Two words, and the one that a row makes of them.
type Words = ((u32, u32), u32);

// What r0 to r5 hold before a row, and what r0 and r1 hold then.
type Registers = ([u32; 6], [u32; 2]);

// Where r2 and r3 hold the first two words, the row sets r0 to the third, and r1 stays.
fn one(rt: &impl Abort, ins: WordIns, cases: &[Words])
    requires { WordsInRange ins }
{
    for ((x, y), want) in cases {
        let mut thread = Thread::fresh();
        thread.r[1] = 34;
        thread.r[2] = *x;
        thread.r[3] = *y;
        let done = matches!(alu(&mut thread, ins), Outcome::Done);
        assert!(rt;
            done && thread.r[0] == *want && thread.r[1] == 34,
            "{x} and {y}"
        );
    }
}

// Where r0 to r5 hold the first words, the row leaves the others in r0 and r1.
fn two(rt: &impl Abort, ins: WordIns, cases: &[Registers])
    requires { WordsInRange ins }
{
    for (before, after) in cases {
        let mut thread = Thread::fresh();
        let [a, b, c, d, e, f] = *before;
        thread.r = [a, b, c, d, e, f, 0, 0, 0, 0, 0, 0];
        let done = matches!(alu(&mut thread, ins), Outcome::Done);
        assert!(rt;
            done && thread.r[0] == after[0] && thread.r[1] == after[1],
            "{c} and {d}"
        );
    }
}

// Where r2 to r4 hold these words, the row traps, and r0 and r1 stay.
fn traps(rt: &impl Abort, ins: WordIns, cases: &[[u32; 3]])
    requires { WordsInRange ins }
{
    for [x, y, v] in cases {
        let mut thread = Thread::fresh();
        thread.r = [17, 34, *x, *y, *v, 0, 0, 0, 0, 0, 0, 0];
        let trapped = matches!(
            alu(&mut thread, ins),
            Outcome::Trap {
                et: ARITHMETIC,
                ed: 0
            }
        );
        assert!(rt;
            trapped && thread.r[0] == 17 && thread.r[1] == 34,
            "{x} and {y}"
        );
    }
}

static SHL: [Words; 6] = [
    ((0x8000_0001, 0), 0x8000_0001),
    ((0x8000_0001, 1), 2),
    ((0x8000_0001, 31), 0x8000_0000),
    ((0x8000_0001, 32), 0),
    ((0x8000_0001, 33), 0),
    ((0x8000_0001, 0xffff_ffff), 0),
];

static SHR: [Words; 6] = [
    ((0x8000_0001, 0), 0x8000_0001),
    ((0x8000_0001, 1), 0x4000_0000),
    ((0x8000_0001, 31), 1),
    ((0x8000_0001, 32), 0),
    ((0x8000_0001, 33), 0),
    ((0x8000_0001, 0xffff_ffff), 0),
];

static ASHR: [Words; 10] = [
    ((0x8000_0001, 0), 0x8000_0001),
    ((0x8000_0001, 1), 0xc000_0000),
    ((0x8000_0001, 31), 0xffff_ffff),
    ((0x8000_0001, 32), 0xffff_ffff),
    ((0x8000_0001, 33), 0xffff_ffff),
    ((0x8000_0001, 0xffff_ffff), 0xffff_ffff),
    ((0x7fff_fffe, 0), 0x7fff_fffe),
    ((0x7fff_fffe, 1), 0x3fff_ffff),
    ((0x7fff_fffe, 31), 0),
    ((0x7fff_fffe, 32), 0),
];

static SHR_IMM: [Words; 1] = [((0xffff_ffff, 0), 0)];

static ASHR_IMM: [Words; 2] = [((0x8000_0000, 0), 0xffff_ffff), ((0x7fff_ffff, 0), 0)];

static MUL: [Words; 4] = [
    ((6, 7), 42),
    ((0xffff_ffff, 0xffff_ffff), 1),
    ((0x1234_5678, 0x9abc_def0), 0x242d_2080),
    ((0x0001_0000, 0x0001_0000), 0),
];

static LSS: [Words; 5] = [
    ((0xffff_ffff, 0), 1),
    ((0, 0xffff_ffff), 0),
    ((0x8000_0000, 0x7fff_ffff), 1),
    ((0x7fff_ffff, 0x8000_0000), 0),
    ((5, 5), 0),
];

#[test]
fn shifts_products_and_order(rt: HostRuntime) {
    one(&rt, WordIns::Shl(0, 2, 3), &SHL);
    one(&rt, WordIns::Shr(0, 2, 3), &SHR);
    one(&rt, WordIns::Ashr(0, 2, 3), &ASHR);
    one(&rt, WordIns::ShrImm(0, 2, 32), &SHR_IMM);
    one(&rt, WordIns::AshrImm(0, 2, 32), &ASHR_IMM);
    one(&rt, WordIns::Mul(0, 2, 3), &MUL);
    one(&rt, WordIns::Lss(0, 2, 3), &LSS);
}

#[test]
fn signed_divisions(rt: HostRuntime) {
    one(
        &rt,
        WordIns::Divs(0, 2, 3),
        &[
            ((0xffff_fff9, 2), 0xffff_fffd),
            ((7, 0xffff_fffe), 0xffff_fffd),
            ((0xffff_fff9, 0xffff_fffe), 3),
            ((0x8000_0000, 1), 0x8000_0000),
            ((0x8000_0000, 2), 0xc000_0000),
            ((0x7fff_ffff, 0xffff_ffff), 0x8000_0001),
            ((1, 0x8000_0000), 0),
        ],
    );
    one(
        &rt,
        WordIns::Rems(0, 2, 3),
        &[
            ((0xffff_fff9, 2), 0xffff_ffff),
            ((7, 0xffff_fffe), 1),
            ((0xffff_fff9, 0xffff_fffe), 0xffff_ffff),
            ((0x8000_0000, 3), 0xffff_fffe),
            ((0x7fff_ffff, 0xffff_ffff), 0),
            ((1, 0x8000_0000), 1),
        ],
    );
}

#[test]
fn divisions_that_trap(rt: HostRuntime) {
    traps(&rt, WordIns::Divu(0, 2, 3), &[[7, 0, 1]]);
    traps(&rt, WordIns::Remu(0, 2, 3), &[[7, 0, 1]]);
    traps(
        &rt,
        WordIns::Divs(0, 2, 3),
        &[[7, 0, 1], [0x8000_0000, 0xffff_ffff, 1]],
    );
    traps(
        &rt,
        WordIns::Rems(0, 2, 3),
        &[[7, 0, 1], [0x8000_0000, 0xffff_ffff, 1]],
    );
    traps(
        &rt,
        WordIns::Ldivu(0, 1, 2, 3, 4),
        &[
            [0, 7, 0],
            [2, 0, 2],
            [0xffff_ffff, 0xffff_ffff, 0xffff_ffff],
        ],
    );
}

static LADD: [Registers; 5] = [
    ([17, 34, 0xffff_ffff, 0, 1, 0], [1, 0]),
    ([17, 34, 0xffff_ffff, 0xffff_ffff, 1, 0], [1, 0xffff_ffff]),
    ([17, 34, 0xffff_ffff, 0xffff_ffff, 2, 0], [1, 0xffff_fffe]),
    ([17, 34, 1, 2, 0xffff_ffff, 0], [0, 4]),
    ([17, 34, 1, 2, 0, 0], [0, 3]),
];

static LSUB: [Registers; 6] = [
    ([17, 34, 0, 0, 1, 0], [1, 0xffff_ffff]),
    ([17, 34, 0, 0xffff_ffff, 1, 0], [1, 0]),
    ([17, 34, 5, 5, 0, 0], [0, 0]),
    ([17, 34, 5, 5, 3, 0], [1, 0xffff_ffff]),
    ([17, 34, 5, 7, 2, 0], [1, 0xffff_fffe]),
    ([17, 34, 0xffff_ffff, 0xffff_ffff, 1, 0], [1, 0xffff_ffff]),
];

static LMUL: [Registers; 3] = [
    (
        [17, 34, 0xffff_ffff, 0xffff_ffff, 0xffff_ffff, 0xffff_ffff],
        [0xffff_ffff, 0xffff_ffff],
    ),
    (
        [17, 34, 0x1234_5678, 0x9abc_def0, 0xdead_beef, 0x0bad_cafe],
        [0x0b00_ea4f, 0x0e88_aa6d],
    ),
    ([17, 34, 0x0001_0000, 0x0001_0000, 1, 2], [1, 3]),
];

static LDIVU: [Registers; 4] = [
    (
        [17, 34, 0x1234_5678, 0x9abc_def0, 0xfedc_ba98, 0],
        [0x1249_2492, 0x5145_1440],
    ),
    (
        [17, 34, 0xffff_fffe, 0xffff_ffff, 0xffff_ffff, 0],
        [0xffff_ffff, 0xffff_fffe],
    ),
    ([17, 34, 0, 7, 2, 0], [3, 1]),
    ([17, 34, 1, 0, 2, 0], [0x8000_0000, 0]),
];

static MACCU: [Registers; 4] = [
    ([0, 1, 0xffff_ffff, 0xffff_ffff, 0, 0], [0xffff_fffe, 2]),
    ([0xffff_ffff, 0xffff_ffff, 1, 1, 0, 0], [0, 0]),
    (
        [0xffff_ffff, 0xffff_ffff, 0xffff_ffff, 0xffff_ffff, 0, 0],
        [0xffff_fffe, 0],
    ),
    (
        [0x0123_4567, 0x89ab_cdef, 0xdead_beef, 0xcafe_f00d, 0, 0],
        [0xb1b6_1f41, 0xc2a0_9012],
    ),
];

static MACCS: [Registers; 7] = [
    ([0, 1, 0xffff_ffff, 0xffff_ffff, 0, 0], [0, 2]),
    ([0, 0, 0xffff_ffff, 1, 0, 0], [0xffff_ffff, 0xffff_ffff]),
    ([0, 5, 3, 0xffff_fffe, 0, 0], [0xffff_ffff, 0xffff_ffff]),
    (
        [0x8000_0000, 0, 0x8000_0000, 0x8000_0000, 0, 0],
        [0xc000_0000, 0],
    ),
    (
        [0, 0, 0x8000_0000, 0x7fff_ffff, 0, 0],
        [0xc000_0000, 0x8000_0000],
    ),
    (
        [0x0123_4567, 0x89ab_cdef, 0xdead_beef, 0xcafe_f00d, 0, 0],
        [0x0809_7045, 0xc2a0_9012],
    ),
    ([0xffff_ffff, 0xffff_ffff, 1, 1, 0, 0], [0, 0]),
];

#[test]
fn two_results(rt: HostRuntime) {
    two(&rt, WordIns::Ladd(0, 1, 2, 3, 4), &LADD);
    two(&rt, WordIns::Lsub(0, 1, 2, 3, 4), &LSUB);
    two(&rt, WordIns::Lmul(0, 1, 2, 3, 4, 5), &LMUL);
    two(&rt, WordIns::Ldivu(0, 1, 2, 3, 4), &LDIVU);
    two(&rt, WordIns::Maccu(0, 1, 2, 3), &MACCU);
    two(&rt, WordIns::Maccs(0, 1, 2, 3), &MACCS);
}

// Of two results in the same register the right one stays.
#[test]
fn two_results_in_one_register(rt: HostRuntime) {
    two(
        &rt,
        WordIns::Ladd(0, 0, 2, 3, 4),
        &[([17, 34, 0xffff_ffff, 5, 1, 0], [5, 34])],
    );
    two(
        &rt,
        WordIns::Lsub(0, 0, 2, 3, 4),
        &[([17, 34, 0, 5, 1, 0], [0xffff_fffa, 34])],
    );
    two(
        &rt,
        WordIns::Lmul(0, 0, 2, 3, 4, 5),
        &[([17, 34, 0xffff_ffff, 0xffff_ffff, 1, 2], [4, 34])],
    );
    two(
        &rt,
        WordIns::Ldivu(0, 0, 2, 3, 4),
        &[([17, 34, 1, 7, 9, 0], [2, 34])],
    );
    two(
        &rt,
        WordIns::Maccu(0, 0, 2, 3),
        &[([7, 34, 0xffff_ffff, 0xffff_ffff, 0, 0], [8, 34])],
    );
    two(
        &rt,
        WordIns::Maccs(0, 0, 2, 3),
        &[([7, 34, 0xffff_ffff, 3, 0, 0], [4, 34])],
    );
}

// Operands are read before anything is written.
#[test]
fn results_in_the_registers_of_operands(rt: HostRuntime) {
    two(
        &rt,
        WordIns::AndNot(0, 2),
        &[([0xff00_ff00, 34, 0x0ff0_0ff0, 0, 0, 0], [0xf000_f000, 34])],
    );
    two(
        &rt,
        WordIns::Lmul(0, 1, 0, 1, 0, 1),
        &[(
            [0x1234_5678, 0x9abc_def0, 0, 0, 0, 0],
            [0x0b00_ea4e, 0xd11e_55e8],
        )],
    );
    two(
        &rt,
        WordIns::Ladd(1, 0, 0, 1, 1),
        &[([0xffff_ffff, 3, 0, 0, 0, 0], [3, 1])],
    );
}
