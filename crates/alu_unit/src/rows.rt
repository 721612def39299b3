//! The rows, by `alu` and `division`: each reads its operands, works on words, and then writes what comes of it.
ghost use Rattle.std.specs.Prelude.{◌≡◌, ◌<◌, ℕ, Bool, IsTrue, Some, None, if◌then◌else◌};
ghost use Rattle.xs_instructions.specs.declared.rows.Row.TheVariants as row;
ghost use Rattle.xs_instructions.specs.Instr.{WordsInRange};
ghost use Rattle.step_model.specs.Outcomes.{EndsAs, IsDoneOrTraps};
ghost use Rattle.xs_model.specs.Threads.{register};
ghost use Rattle.alu_unit.specs.Ends.{TrapsAsArithmetic, IsRow};
ghost use Rattle.alu_unit.specs.Parts.{stands_after};
ghost use Rattle.step_model.specs.DividerRows.{is_division};
ghost use Rattle.step_model.specs.WordRows.{words_row, sets, sets_two, divides, divides_long};

use crate::words::{divs, divu, lss, maccs, maccu, rems, remu};
use core_state::{Outcome, Thread};
use xs_base::{
    add_carry, ashr, bitrev, byterev, clz, div_long, mkmsk, mul_long, sext, shl, shr, sub_borrow,
    zext,
};
use xs_instructions::WordIns;
use xs_model::traps::ARITHMETIC;

// How a row ends that divides where there is no quotient.
const NO_QUOTIENT: Outcome = Outcome::Trap {
    et: ARITHMETIC,
    ed: 0,
};

/// Does a row on words: reads its operands, and then writes its result, of two results the left one first. It traps, and changes
/// nothing, where it divides and there is no quotient. pc is left to the caller. See docs/INSTRUCTIONS.md.
pub fn alu(thread: &mut Thread, ins: WordIns) -> Outcome
    requires range { WordsInRange ins }
    ensures row { EndsAs result thread.old thread.new (words_row thread.old ins) }
    ensures ends { IsDoneOrTraps result thread.old thread.new }
    ensures trap { TrapsAsArithmetic result }
    ensures stays { thread.new ≡ record thread.old { r = thread.new.r } }
{
    match ins {
        WordIns::Add(d, x, y) => set(thread, d, get(thread, x).wrapping_add(get(thread, y))),
        WordIns::AddImm(d, x, i) => set(thread, d, get(thread, x).wrapping_add(u32::from(i))),
        WordIns::Sub(d, x, y) => set(thread, d, get(thread, x).wrapping_sub(get(thread, y))),
        WordIns::SubImm(d, x, i) => set(thread, d, get(thread, x).wrapping_sub(u32::from(i))),
        WordIns::Neg(d, x) => set(thread, d, 0_u32.wrapping_sub(get(thread, x))),
        WordIns::Not(d, x) => set(thread, d, !get(thread, x)),
        WordIns::And(d, x, y) => set(thread, d, get(thread, x) & get(thread, y)),
        WordIns::Or(d, x, y) => set(thread, d, get(thread, x) | get(thread, y)),
        WordIns::Xor(d, x, y) => set(thread, d, get(thread, x) ^ get(thread, y)),
        WordIns::AndNot(d, x) => set(thread, d, get(thread, d) & !get(thread, x)),
        _ => compare_or_shift(thread, ins),
    }
}

// From `eq` on: comparisons and shifts, and the parts that follow.
#[inline]
fn compare_or_shift(thread: &mut Thread, ins: WordIns) -> Outcome
    requires range { WordsInRange ins }
    requires part { IsTrue (stands_after row.AndNot ins) }
    ensures { IsRow result thread.old thread.new (words_row thread.old ins) }
{
    match ins {
        WordIns::Eq(d, x, y) => set(thread, d, u32::from(get(thread, x) == get(thread, y))),
        WordIns::EqImm(d, x, i) => set(thread, d, u32::from(get(thread, x) == u32::from(i))),
        WordIns::Lss(d, x, y) => set(thread, d, lss(get(thread, x), get(thread, y))),
        WordIns::Lsu(d, x, y) => set(thread, d, u32::from(get(thread, x) < get(thread, y))),
        WordIns::Shl(d, x, y) => set(thread, d, shl(get(thread, x), get(thread, y))),
        WordIns::ShlImm(d, x, b) => set(thread, d, shl(get(thread, x), u32::from(b))),
        WordIns::Shr(d, x, y) => set(thread, d, shr(get(thread, x), get(thread, y))),
        WordIns::ShrImm(d, x, b) => set(thread, d, shr(get(thread, x), u32::from(b))),
        WordIns::Ashr(d, x, y) => set(thread, d, ashr(get(thread, x), get(thread, y))),
        WordIns::AshrImm(d, x, b) => set(thread, d, ashr(get(thread, x), u32::from(b))),
        _ => multiply_or_divide(thread, ins),
    }
}

// From `mul` on: products, quotients and what is left of them, and the parts that follow.
#[inline]
fn multiply_or_divide(thread: &mut Thread, ins: WordIns) -> Outcome
    requires range { WordsInRange ins }
    requires part { IsTrue (stands_after row.AshrImm ins) }
    ensures { IsRow result thread.old thread.new (words_row thread.old ins) }
{
    match ins {
        WordIns::Mul(d, x, y) => set(thread, d, get(thread, x).wrapping_mul(get(thread, y))),
        WordIns::Divu(..) | WordIns::Remu(..) | WordIns::Divs(..) | WordIns::Rems(..) => {
            division(thread, ins)
        }
        _ => mask_or_count(thread, ins),
    }
}

// From `mkmsk` on: masks, words of fewer bits and the order of bits, and the part that follows.
#[inline]
fn mask_or_count(thread: &mut Thread, ins: WordIns) -> Outcome
    requires range { WordsInRange ins }
    requires part { IsTrue (stands_after row.Rems ins) }
    ensures { IsRow result thread.old thread.new (words_row thread.old ins) }
{
    match ins {
        WordIns::Mkmsk(d, x) => set(thread, d, mkmsk(get(thread, x))),
        WordIns::MkmskImm(d, b) => set(thread, d, mkmsk(u32::from(b))),
        WordIns::Sext(d, x) => set(thread, d, sext(get(thread, d), get(thread, x))),
        WordIns::SextImm(d, b) => set(thread, d, sext(get(thread, d), u32::from(b))),
        WordIns::Zext(d, x) => set(thread, d, zext(get(thread, d), get(thread, x))),
        WordIns::ZextImm(d, b) => set(thread, d, zext(get(thread, d), u32::from(b))),
        WordIns::Bitrev(d, x) => set(thread, d, bitrev(get(thread, x))),
        WordIns::Byterev(d, x) => set(thread, d, byterev(get(thread, x))),
        WordIns::Clz(d, x) => set(thread, d, clz(get(thread, x))),
        _ => on_two_words(thread, ins),
    }
}

// From `ladd` on: numbers of two words, and the part that follows.
#[inline]
fn on_two_words(thread: &mut Thread, ins: WordIns) -> Outcome
    requires range { WordsInRange ins }
    requires part { IsTrue (stands_after row.Clz ins) }
    ensures { IsRow result thread.old thread.new (words_row thread.old ins) }
{
    match ins {
        WordIns::Ladd(d, e, x, y, v) => {
            let both = add_carry(get(thread, x), get(thread, y), get(thread, v));
            set_two(thread, d, e, both)
        }
        WordIns::Lsub(d, e, x, y, v) => {
            let both = sub_borrow(get(thread, x), get(thread, y), get(thread, v));
            set_two(thread, d, e, both)
        }
        WordIns::Lmul(d, e, x, y, v, w) => {
            let (v, w) = (get(thread, v), get(thread, w));
            let both = mul_long(get(thread, x), get(thread, y), v, w);
            set_two(thread, d, e, both)
        }
        WordIns::Ldivu(..) => division(thread, ins),
        _ => accumulate_or_load(thread, ins),
    }
}

// From `maccu` on: sums of products, and the last two rows.
#[inline]
fn accumulate_or_load(thread: &mut Thread, ins: WordIns) -> Outcome
    requires range { WordsInRange ins }
    requires part { IsTrue (stands_after row.Ldivu ins) }
    ensures { IsRow result thread.old thread.new (words_row thread.old ins) }
{
    match ins {
        WordIns::Maccu(d, e, x, y) => {
            let (high, low) = (get(thread, d), get(thread, e));
            let both = maccu(high, low, get(thread, x), get(thread, y));
            set_two(thread, d, e, both)
        }
        WordIns::Maccs(d, e, x, y) => {
            let (high, low) = (get(thread, d), get(thread, e));
            let both = maccs(high, low, get(thread, x), get(thread, y));
            set_two(thread, d, e, both)
        }
        WordIns::Ldc(d, u) => set(thread, d, u32::from(u)),
        WordIns::Nop => Outcome::Done,
        _ => unreachable!(),
    }
}

/// Does a row that divides, as `alu` does it: `divu`, `divs`, `remu`, `rems` or `ldivu`. pc is left to the caller. See
/// docs/INSTRUCTIONS.md.
pub fn division(thread: &mut Thread, ins: WordIns) -> Outcome
    requires range { WordsInRange ins }
    requires part { IsTrue (is_division ins) }
    ensures row { EndsAs result thread.old thread.new (words_row thread.old ins) }
    ensures ends { IsDoneOrTraps result thread.old thread.new }
    ensures trap { TrapsAsArithmetic result }
    ensures stays { thread.new ≡ record thread.old { r = thread.new.r } }
{
    match ins {
        WordIns::Divu(d, x, y) => divide(thread, d, divu(get(thread, x), get(thread, y))),
        WordIns::Remu(d, x, y) => divide(thread, d, remu(get(thread, x), get(thread, y))),
        WordIns::Divs(d, x, y) => divide(thread, d, divs(get(thread, x), get(thread, y))),
        WordIns::Rems(d, x, y) => divide(thread, d, rems(get(thread, x), get(thread, y))),
        WordIns::Ldivu(d, e, x, y, v) => {
            let both = div_long(get(thread, x), get(thread, y), get(thread, v));
            divide_long(thread, d, e, both)
        }
        _ => unreachable!(),
    }
}

// What an operand's register holds.
#[inline]
fn get(thread: &Thread, x: u8) -> u32
    requires { x < 12 }
    ensures value { result ≡ register thread.now x }
{
    thread.r[x as usize]
}

// A row with one result.
#[inline]
fn set(thread: &mut Thread, d: u8, word: u32) -> Outcome
    requires { d < 12 }
    ensures { IsRow result thread.old thread.new (sets thread.old d word) }
{
    thread.r[d as usize] = word;
    Outcome::Done
}

// A row with two results, of which the left one is written first.
#[inline]
fn set_two(thread: &mut Thread, d: u8, e: u8, both: (u32, u32)) -> Outcome
    requires left { d < 12 }
    requires right { e < 12 }
    ensures { IsRow result thread.old thread.new (sets_two thread.old d e both) }
{
    thread.r[d as usize] = both.0;
    thread.r[e as usize] = both.1;
    Outcome::Done
}

// A row that divides: with no quotient it traps.
#[inline]
fn divide(thread: &mut Thread, d: u8, quotient: Option<u32>) -> Outcome
    requires { d < 12 }
    ensures row { (fails : Bool) → (word : ℕ) → quotient ≡ (if fails then None else Some word)
        → EndsAs result thread.old thread.new (divides thread.old d fails word) }
    ensures ends { IsDoneOrTraps result thread.old thread.new }
    ensures trap { TrapsAsArithmetic result }
    ensures stays { thread.new ≡ record thread.old { r = thread.new.r } }
{
    match quotient {
        None => NO_QUOTIENT,
        Some(word) => set(thread, d, word),
    }
}

// A long division: with no quotient it traps.
#[inline]
fn divide_long(thread: &mut Thread, d: u8, e: u8, both: Option<(u32, u32)>) -> Outcome
    requires left { d < 12 }
    requires right { e < 12 }
    ensures { IsRow result thread.old thread.new (divides_long thread.old d e both) }
{
    match both {
        None => NO_QUOTIENT,
        Some(both) => set_two(thread, d, e, both),
    }
}
