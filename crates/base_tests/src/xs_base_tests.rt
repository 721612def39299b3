//! Identifiers, batches, and the arithmetic of words.

use std::process::Abort;
use std::test::Fail;
use xs_base::{
    Batch, Entry, Token, What, add_carry, ashr, bitrev, byterev, chan_id, clz, div_long, mkmsk,
    mul_long, port_id, port_named, port_of, port_width, res_id, sext, shl, shr, sub_borrow, zext,
};

#[test]
fn identifiers(rt: HostRuntime) {
    let ids = [chan_id(1, 0), chan_id(0xffff, 31), res_id(9, 1)];
    assert_eq!(rt; ids, [0x0001_0002, 0xffff_1f02, 0x901]);
    // 1A, 1P, 4A, 4F, 8D, 16B and 32A
    for (port, width, letter, id) in [
        (0, 1, b'A', 0x0001_0000),
        (15, 1, b'P', 0x0001_0f00),
        (16, 4, b'A', 0x0004_0000),
        (21, 4, b'F', 0x0004_0500),
        (25, 8, b'D', 0x0008_0300),
        (27, 16, b'B', 0x0010_0100),
        (28, 32, b'A', 0x0020_0000),
    ] {
        let found = (
            port_width(port),
            port_id(port),
            port_of(id),
            port_named(width, letter),
        );
        assert_eq!(rt; found, (width, id, Some(port), Some(port)));
    }
    for id in [0, 1, 0x0001_1000, 0x0002_0000, 0x0020_0100, 0x0001_0002] {
        assert_eq!(rt; (id, port_of(id)), (id, None));
    }
    for (width, letter) in [(1, b'Q'), (4, b'G'), (2, b'A'), (4, b'a'), (32, b'B')] {
        assert_eq!(rt;
            (width, letter, port_named(width, letter)),
            (width, letter, None)
        );
    }
}

#[test]
fn a_batch_grows(rt: HostRuntime) -> Result<(), Fail> {
    let mut batch = Batch::new(rt.alloc());
    let begins_empty = batch.entries().is_empty();
    let token = Entry {
        slot: 13,
        what: What::Token(Token::Ctrl(1)),
    };
    let credit = Entry {
        slot: 13,
        what: What::Credit,
    };
    batch.reserve(2)?;
    batch.add(token);
    batch.add(credit);
    assert!(rt;
        begins_empty
            && batch.entries() == [token, credit].as_slice()
            && Token::default() == Token::Byte(0)
    );
    Ok(())
}

/// Numbers in hexadecimal digits, behind a word that says what they are:
/// - `shift`: a word, a number of bits, and what `shl`, `shr`, `ashr`, `zext` and `sext` give;
/// - `order`: a word, and what `mkmsk`, `clz`, `bitrev` and `byterev` give;
/// - `sum`: three words, and what `add_carry` and `sub_borrow` give;
/// - `product`: four words, and what `mul_long` gives;
/// - `quotient`: three words, 1 where `div_long` gives something, and what it gives, else 0.
/// They were made by another program, with whole numbers and with texts of binary digits.
const WORDS: &str = "\
shift 12345678 0 12345678 12345678 12345678 12345678 12345678
shift 80000001 1 2 40000000 c0000000 1 ffffffff
shift 7fffffff 1 fffffffe 3fffffff 3fffffff 1 ffffffff
shift ffffffff 1 fffffffe 7fffffff ffffffff 1 ffffffff
shift 80 8 8000 0 0 80 ffffff80
shift ffff7f7f 8 ff7f7f00 ffff7f ffffff7f 7f 7f
shift 89abcdef 10 cdef0000 89ab ffff89ab cdef ffffcdef
shift c0000001 1e 40000000 3 ffffffff 1 1
shift 40000000 1f 0 0 0 40000000 c0000000
shift bfffffff 1f 80000000 1 ffffffff 3fffffff 3fffffff
shift 80000001 1f 80000000 1 ffffffff 1 1
shift 80000000 20 0 0 ffffffff 80000000 80000000
shift 7fffffff 20 0 0 0 7fffffff 7fffffff
shift 80000000 21 0 0 ffffffff 80000000 80000000
shift 80000000 28 0 0 ffffffff 80000000 80000000
shift 9abcdef0 40 0 0 ffffffff 9abcdef0 9abcdef0
shift 80000000 80000000 0 0 ffffffff 80000000 80000000
shift fffffffe ffffffff 0 0 ffffffff fffffffe fffffffe
shift 7fffffff ffffffff 0 0 0 7fffffff 7fffffff
order 0 0 20 0 0
order 1 1 1f 80000000 1000000
order 2 3 1e 40000000 2000000
order 3 7 1e c0000000 3000000
order 7 7f 1d e0000000 7000000
order 8 ff 1c 10000000 8000000
order 10 ffff 1b 8000000 10000000
order 1f 7fffffff 1b f8000000 1f000000
order 20 ffffffff 1a 4000000 20000000
order 21 ffffffff 1a 84000000 21000000
order ff ffffffff 18 ff000000 ff000000
order ffff ffffffff 10 ffff0000 ffff0000
order 12345678 ffffffff 3 1e6a2c48 78563412
order 40000000 ffffffff 1 2 40
order 7fffffff ffffffff 1 fffffffe ffffff7f
order 80000000 ffffffff 0 1 80
order 80000001 ffffffff 0 80000001 1000080
order deadbeef ffffffff 0 f77db57b efbeadde
order fffffffe ffffffff 0 7fffffff feffffff
order ffffffff ffffffff 0 ffffffff ffffffff
sum 0 0 0 0 0 0 0
sum 0 0 1 0 1 1 ffffffff
sum 0 0 2 0 0 0 0
sum 0 0 ffffffff 0 1 1 ffffffff
sum 0 1 0 0 1 1 ffffffff
sum 5 5 0 0 a 0 0
sum 5 5 1 0 b 1 ffffffff
sum 5 4 1 0 a 0 0
sum ffffffff 0 1 1 0 0 fffffffe
sum ffffffff 1 0 1 0 0 fffffffe
sum 7fffffff 80000000 0 0 ffffffff 1 ffffffff
sum 7fffffff 80000000 1 1 0 1 fffffffe
sum 80000000 80000000 0 1 0 0 0
sum 0 ffffffff 0 0 ffffffff 1 1
sum 0 ffffffff 1 1 0 1 0
sum ffffffff ffffffff 0 1 fffffffe 0 0
sum ffffffff ffffffff 3 1 ffffffff 1 ffffffff
sum ffffffff 0 ffffffff 1 0 0 fffffffe
sum 89abcdef 12345678 10 0 9be02467 0 77777777
product 0 0 0 0 0 0
product 0 ffffffff 1 2 0 3
product 1 ffffffff 0 0 0 ffffffff
product 1 ffffffff 1 0 1 0
product ffffffff 1 ffffffff 0 1 fffffffe
product 10000 10000 0 0 1 0
product 10000 10000 ffffffff ffffffff 2 fffffffe
product ffff 10001 0 0 0 ffffffff
product ffff 10001 1 0 1 0
product ffffffff ffffffff 0 0 fffffffe 1
product ffffffff ffffffff ffffffff 0 ffffffff 0
product ffffffff ffffffff ffffffff ffffffff ffffffff ffffffff
product 80000000 2 0 0 1 0
product 12345678 9abcdef0 deadbeef 7 b00ea4f 2dadf76
quotient 0 0 1 1 0 0
quotient 0 7 2 1 3 1
quotient 0 6 7 1 0 6
quotient 0 ffffffff 1 1 ffffffff 0
quotient 1 0 2 1 80000000 0
quotient 1 ffffffff 2 1 ffffffff 1
quotient 0 ffffffff ffffffff 1 1 0
quotient fffffffe ffffffff ffffffff 1 ffffffff fffffffe
quotient 0 ffffffff 10000 1 ffff ffff
quotient 12345678 9abcdef0 12345679 1 fffffffa 7f6e5c6
quotient 7fffffff ffffffff 80000000 1 ffffffff 7fffffff
quotient 0 0 0 0 0 0
quotient 1 0 1 0 0 0
quotient 2 0 2 0 0 0
quotient 3 0 2 0 0 0
quotient ffffffff 0 ffffffff 0 0 0
quotient ffffffff ffffffff ffffffff 0 0 0
quotient 12345678 9abcdef0 12345678 0 0 0
quotient 5 0 0 0 0 0";

fn word(digits: Option<&str>) -> u32 {
    digits
        .and_then(|d| u32::from_str_radix(d, 16).ok())
        .unwrap_or(0)
}

// What a line says, and its numbers, with 0 for those that it does not have.
fn parts(line: &str) -> (&str, [u32; 7]) {
    let mut words = line.split(' ');
    let what = words.next().unwrap_or("");
    let a = word(words.next());
    let b = word(words.next());
    let c = word(words.next());
    let d = word(words.next());
    let e = word(words.next());
    let f = word(words.next());
    let g = word(words.next());
    (what, [a, b, c, d, e, f, g])
}

// The numbers of a line as the calls give them for its words.
fn given(what: &str, [a, b, c, d, ..]: [u32; 7]) -> [u32; 7] {
    match what {
        "shift" => [
            a,
            b,
            shl(a, b),
            shr(a, b),
            ashr(a, b),
            zext(a, b),
            sext(a, b),
        ],
        "order" => [a, mkmsk(a), clz(a), bitrev(a), byterev(a), 0, 0],
        "sum" => {
            let (carry, sum) = add_carry(a, b, c);
            let (borrow, difference) = sub_borrow(a, b, c);
            [a, b, c, carry, sum, borrow, difference]
        }
        "product" => {
            let (high, low) = mul_long(a, b, c, d);
            [a, b, c, d, high, low, 0]
        }
        _ => match div_long(a, b, c) {
            Some((quotient, rest)) => [a, b, c, 1, quotient, rest, 0],
            None => [a, b, c, 0, 0, 0, 0],
        },
    }
}

#[test]
fn words(rt: HostRuntime) {
    for line in WORDS.lines() {
        let (what, numbers) = parts(line);
        assert_eq!(rt; given(what, numbers), numbers, "{line}");
    }
}
