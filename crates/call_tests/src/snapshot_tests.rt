//! Snapshots of two nodes: what is written before a slot, and how a run goes on from it where it is whole, changed, cut or too long. No
//! expected value comes from the program.
use crate::xs1_top_tests::{PAIR, PAIR_FOR_40, call};
use std::alloc::{AllocError, Global};
use std::sync::Wait;
use std::test::Fail;
use std::thread::Threads;
use xs_edge::{FailingSource, ListSink, ListSource};
use xs1_top::Status;

// How many bytes the snapshot of the pair before slot 20 has.
const LENGTH: usize = 138_942;

// The first word of node 0's memory there, with the zero bytes at its end left out.
const WORD: &[u8] = b"\x02\0\x01";

// How many bytes a snapshot may have.
const LONGEST: usize = 8_388_608;

// The rest of the trace, where the word is another one; and that from a slot on in which the token has arrived.
const OTHER_FOR_40: &[u8] =
    b"30 n1 chan 0 ct 1\nlink 0:0>1:0 tokens 4 credits 0\nlink 1:0>0:0 tokens 0 credits 4\nn0 mem 0x00010000 0x00010003\nend 40\n";

const LATER_FOR_40: &[u8] =
    b"link 0:0>1:0 tokens 4 credits 0\nlink 1:0>0:0 tokens 0 credits 4\nn0 mem 0x00010000 0x00010002\nend 40\n";

// A node that gets the first timer, channel end and lock and uses them; how many bytes its snapshot has; and the trace where the
// snapshot says something of them before they are got.
const GETS: &[u8] =
    b"xs1 1\nnode 0 id 0\nsource 0\n  getr r0, 1\n  in r1, res[r0]\n  stw r1, dp[0]\n  getr r0, 2\n  getd r1, res[r0]\n  stw r1, dp[1]\n  getn r1, res[r0]\n  stw r1, dp[2]\n  int r1, res[r0]\n  stw r1, dp[3]\n  getr r0, 5\n  in r1, res[r0]\nend\n";

const GETS_LENGTH: usize = 69_552;

const GETS_FOR_60: &[u8] =
    b"52 n0.t0 trap 4 pc 0x0004002c data 0x00000005\n52 n0.t0 halt\nn0.t0 halted\nn0 mem 0x00010000 0x00000003\nn0 mem 0x00010004 0x00050002\nn0 mem 0x0001000c 0x00000009\nend 60\n";

// Zeros but for these fields, each from its byte on.
fn laid_out(alloc: Global, fields: &[(usize, &[u8])]) -> Result<Vec<u8>, AllocError> {
    let mut bytes = Vec::new(alloc);
    for &(at, field) in fields {
        let zeros = vec![in alloc; 0; at.saturating_sub(bytes.len())]?;
        bytes.extend_from_slice(&zeros)?;
        bytes.extend_from_slice(field)?;
    }
    Ok(bytes)
}

// The snapshot of the pair before slot 20 as it was worked out by hand, with this word.
fn pair_before_20(alloc: Global, word: &[u8]) -> Result<Vec<u8>, AllocError> {
    let fields = [
        (0, b"xs1 snapshot 1\n\xf5".as_slice()),
        (19, PAIR),
        // The slot.
        (264, b"\x14"),
        // Of node 0 the registers of thread 0, which is free, and the slot of its last issue.
        (280, b"\x02\0\0\0\x02\0\x01"),
        (328, b"\x04\0\x01\0\0\0\x01\0\xfc\xff\x01"),
        (344, b"\x14\0\x04"),
        (384, b"\x01\x10"),
        // Its channel end 0, in which END waits behind the header; the way of that packet; link end 0, which sent last in slot 17.
        (1_152, b"\x01\0\x01\x02\0\x01\0\x01\x01\x01"),
        (3_532, b"\x05\x02\0\0\0\x02\0\x01"),
        (3_852, b"\x01\0\x02\x01\x11"),
        (4_037, word),
        // Of node 1 the registers of thread 0, which is paused for a token, and the slot of its last issue.
        (69_585, b"\x02\0\x01"),
        (69_635, b"\x01\0\0\0\x01\0\xfc\xff\x01"),
        (69_649, b"\x04\0\x04"),
        (69_685, b"\x04\x01\0\x01\x01\x04"),
        // Its channel end 0; the first byte of a header; link end 0.
        (70_457, b"\x01"),
        (72_755, b"\x01"),
        (73_155, b"\x01"),
        // The second byte is in flight, one of two that were sent; back a credit, one of one.
        (138_876, b"\x01\0\0\0\x11\0\0\0\0\x01\0\0\0\x02"),
        (138_909, b"\x01\0\0\0\x12\0\0\0\x02"),
        (138_930, b"\x01"),
        (LENGTH, b""),
    ];
    laid_out(alloc, &fields)
}

// A snapshot of the node before slot 0, in which no resource is in use.
fn gets_before_0(alloc: Global) -> Result<Vec<u8>, AllocError> {
    let fields = [
        (0, b"xs1 snapshot 1\n\xe0".as_slice()),
        (19, GETS),
        // The registers of thread 0, which goes.
        (309, b"\x01\0\0\0\x01\0\xfc\xff\x01"),
        (325, b"\x04"),
        (359, b"\x03"),
        // Channel end 0 has network 3, a destination and a byte that came; timer 0 the value 2 and a condition; lock 0 the owner 0.
        (1_132, b"\x03\x01\x02\0\x05\0\0\x01\0\x09"),
        (1_422, b"\x01\x02"),
        (1_521, b"\x01"),
        (GETS_LENGTH, b""),
    ];
    laid_out(alloc, &fields)
}

// What is answered to these words and this input.
fn answer_to<R: Threads + Wait + Sync>(
    rt: &R,
    alloc: Global,
    words: &[&str],
    input: Vec<u8>,
) -> Result<(Status, ListSink), AllocError> {
    let mut source = ListSource::new(input);
    let mut sink = ListSink::with_room(alloc, 262_144)?;
    let ended = call(rt, alloc, words, &mut source, &mut sink)?;
    Ok((ended, sink))
}

#[test]
fn saves_a_run_under_way(rt: HostRuntime) -> Result<(), Fail> {
    let (ended, sink) = answer_to(&rt, rt.alloc(), &["save", "20"], PAIR.to_vec(rt.alloc())?)?;
    let expected = pair_before_20(rt.alloc(), WORD)?;
    assert!(rt; ended == Status::Done && sink.bytes() == expected.as_slice());
    Ok(())
}

// The word is read before slot 20, so another one there changes nothing else.
#[test]
fn goes_on_from_a_snapshot(rt: HostRuntime) -> Result<(), Fail> {
    for (word, text) in [
        (WORD, PAIR_FOR_40),
        (b"\x03\0\x01".as_slice(), OTHER_FOR_40),
    ] {
        let input = pair_before_20(rt.alloc(), word)?;
        let (ended, sink) = answer_to(&rt, rt.alloc(), &["resume", "40"], input)?;
        assert!(rt; ended == Status::Done && sink.bytes() == text);
    }
    Ok(())
}

// The timer's condition holds from slot 12 on, and the thread that would own the lock owns it.
#[test]
fn gets_what_a_snapshot_says_of_resources_not_in_use(rt: HostRuntime) -> Result<(), Fail> {
    let input = gets_before_0(rt.alloc())?;
    let (ended, sink) = answer_to(&rt, rt.alloc(), &["resume", "60"], input)?;
    assert!(rt; ended == Status::Done && sink.bytes() == GETS_FOR_60);
    Ok(())
}

#[test]
fn tells_no_event_that_was_before(rt: HostRuntime) -> Result<(), Fail> {
    for (slots, text) in [("20", PAIR_FOR_40), ("31", LATER_FOR_40)] {
        let (_, saved) = answer_to(&rt, rt.alloc(), &["save", slots], PAIR.to_vec(rt.alloc())?)?;
        let input = saved.bytes().to_vec(rt.alloc())?;
        let (ended, sink) = answer_to(&rt, rt.alloc(), &["resume", "40"], input)?;
        assert!(rt; ended == Status::Done && sink.bytes() == text);
    }
    Ok(())
}

#[test]
fn refuses_an_earlier_slot(rt: HostRuntime) -> Result<(), Fail> {
    let input = pair_before_20(rt.alloc(), WORD)?;
    let (ended, sink) = answer_to(&rt, rt.alloc(), &["resume", "19"], input)?;
    assert!(rt;
        ended == Status::SystemFault
            && sink.bytes() == b"snapshot byte 264: N3 slot out of range\n".as_slice()
    );
    Ok(())
}

// The last field has four bytes, and one byte more is a field too many.
#[test]
fn refuses_other_lengths(rt: HostRuntime) -> Result<(), Fail> {
    let mut cut = pair_before_20(rt.alloc(), WORD)?;
    let _ = cut.pop();
    let mut longer = pair_before_20(rt.alloc(), WORD)?;
    longer.push(0)?;
    for (input, text) in [
        (cut, b"snapshot byte 138938: N1 bad snapshot\n".as_slice()),
        (
            longer,
            b"snapshot byte 138942: N1 bad snapshot\n".as_slice(),
        ),
    ] {
        let (ended, sink) = answer_to(&rt, rt.alloc(), &["resume", "40"], input)?;
        assert!(rt; ended == Status::SystemFault && sink.bytes() == text);
    }
    Ok(())
}

// The length is tested before the first line.
#[test]
fn takes_the_longest_snapshot_and_no_longer(rt: HostRuntime) -> Result<(), Fail> {
    for (count, text) in [
        (LONGEST, b"snapshot byte 0: N1 bad snapshot\n".as_slice()),
        (
            LONGEST + 1,
            b"snapshot byte 0: N4 input too long\n".as_slice(),
        ),
    ] {
        let input = vec![in rt.alloc(); 0; count]?;
        let (ended, sink) = answer_to(&rt, rt.alloc(), &["resume", "40"], input)?;
        assert!(rt; ended == Status::SystemFault && sink.bytes() == text);
    }
    Ok(())
}

// The input is one byte longer than what is taken of it.
#[test]
fn fails_where_a_read_fails_before_the_last_byte_of_a_snapshot(
    rt: HostRuntime,
) -> Result<(), Fail> {
    for (after, status) in [
        (LONGEST + 1, Status::SystemFault),
        (LONGEST, Status::ReadFault),
    ] {
        let mut source = FailingSource::new(vec![in rt.alloc(); 0; LONGEST + 2]?, after);
        let mut sink = ListSink::with_room(rt.alloc(), 256)?;
        let ended = call(&rt, rt.alloc(), &["resume", "40"], &mut source, &mut sink)?;
        assert_eq!(rt; ended, status);
    }
    Ok(())
}
