//! Channel ends: calls in turn, by hand.
ghost use Rattle.std.specs.Prelude.{◌<◌};

use chan_ends::{Bad, ChanEnds, Put, Take, Token};
use std::process::Abort;

// A call on a channel end, and the answer that is wanted.
#[derive(Clone, Copy)]
enum Call {
    Used(bool),
    SetDest(u32, Result<(), Bad>),
    Dest(Option<u32>),
    SetNet(u32, Result<(), Bad>),
    Net(u8),
    Put(Token, Put),
    PutWord(u32, Put),
    FirstOut(Option<Token>),
    PopOut(Option<Token>),
    PushIn(Token, bool),
    FirstIn(Option<Token>),
    HasRoom(u8, bool),
    HasTokens(u8, bool),
    TakeWord(Take),
    TakeByte(Take),
    TakeCtrl(Take),
    Check(u32, Take),
    Look(Take),
    LookWord(Take),
    Sending(u32),
    Ready(u32),
}

const END: Token = Token::Ctrl(1);

// The calls on channel end 1, which is in use.
const OF_USED: [Call; 38] = [
    Call::Used(true),
    Call::Dest(None),
    Call::Put(END, Put::Bad),
    Call::SetDest(0x00030101, Err(Bad)),
    Call::Put(END, Put::Bad),
    Call::SetDest(0x00030102, Ok(())),
    Call::Dest(Some(0x00030102)),
    Call::PopOut(None),
    Call::Put(Token::Byte(10), Put::Done),
    Call::Put(Token::Byte(11), Put::Done),
    Call::Put(Token::Byte(12), Put::Done),
    Call::Put(Token::Byte(13), Put::Done),
    Call::Put(Token::Byte(14), Put::Done),
    Call::Put(Token::Byte(15), Put::Done),
    Call::Put(Token::Byte(16), Put::Done),
    Call::Put(Token::Byte(17), Put::Done),
    Call::HasRoom(1, false),
    Call::HasRoom(0, true),
    Call::Put(END, Put::Full),
    Call::FirstOut(Some(Token::Byte(10))),
    Call::PopOut(Some(Token::Byte(10))),
    Call::PopOut(Some(Token::Byte(11))),
    Call::HasRoom(2, true),
    Call::HasRoom(3, false),
    Call::Put(END, Put::Done),
    Call::HasTokens(0, true),
    Call::HasTokens(1, false),
    Call::Check(1, Take::Wait),
    Call::PushIn(END, true),
    Call::PushIn(Token::Byte(1), true),
    Call::Check(2, Take::Bad),
    Call::HasTokens(4, true),
    Call::Check(1, Take::Got(1)),
    Call::HasTokens(1, true),
    Call::HasTokens(2, false),
    Call::HasTokens(0, true),
    Call::Check(1, Take::Bad),
    Call::FirstIn(Some(Token::Byte(1))),
];

// What is taken from channel end 1, and what is seen there.
const OF_TAKES: [Call; 40] = [
    // Nothing is there.
    Call::Ready(0),
    Call::TakeWord(Take::Wait),
    Call::TakeByte(Take::Wait),
    Call::TakeCtrl(Take::Wait),
    Call::Look(Take::Wait),
    Call::LookWord(Take::Wait),
    // Two bytes, and then a control token.
    Call::PushIn(Token::Byte(5), true),
    Call::PushIn(Token::Byte(6), true),
    Call::Ready(0b10),
    Call::LookWord(Take::Wait),
    Call::PushIn(END, true),
    Call::TakeWord(Take::Bad),
    Call::LookWord(Take::Got(3)),
    Call::Look(Take::Got(0)),
    Call::TakeCtrl(Take::Bad),
    Call::TakeByte(Take::Got(5)),
    Call::TakeByte(Take::Got(6)),
    Call::Look(Take::Got(1)),
    Call::LookWord(Take::Got(1)),
    Call::TakeByte(Take::Bad),
    Call::Ready(0b10),
    Call::TakeCtrl(Take::Got(1)),
    Call::Ready(0),
    // Three bytes, a fourth, and what is behind the four.
    Call::PushIn(Token::Byte(1), true),
    Call::PushIn(Token::Byte(2), true),
    Call::PushIn(Token::Byte(3), true),
    Call::TakeWord(Take::Wait),
    Call::LookWord(Take::Wait),
    Call::TakeCtrl(Take::Bad),
    Call::PushIn(Token::Byte(4), true),
    Call::LookWord(Take::Got(0)),
    Call::TakeWord(Take::Got(0x01020304)),
    Call::Look(Take::Wait),
    Call::PushIn(Token::Byte(0xFF), true),
    Call::PushIn(Token::Byte(0), true),
    Call::PushIn(Token::Byte(0), true),
    Call::PushIn(Token::Byte(1), true),
    Call::PushIn(END, true),
    Call::TakeWord(Take::Got(0xFF000001)),
    Call::TakeCtrl(Take::Got(1)),
];

// Words that are put into channel end 1.
const OF_WORDS: [Call; 20] = [
    Call::PutWord(1, Put::Bad),
    Call::Sending(0),
    Call::SetDest(0x00030102, Ok(())),
    Call::PutWord(0xAABBCCDD, Put::Done),
    Call::Sending(0b10),
    Call::Put(END, Put::Done),
    Call::PutWord(0x01020304, Put::Full),
    Call::PopOut(Some(Token::Byte(0xAA))),
    Call::PutWord(0x01020304, Put::Done),
    Call::PutWord(0, Put::Full),
    Call::PopOut(Some(Token::Byte(0xBB))),
    Call::PopOut(Some(Token::Byte(0xCC))),
    Call::PopOut(Some(Token::Byte(0xDD))),
    Call::PopOut(Some(END)),
    Call::PopOut(Some(Token::Byte(1))),
    Call::PopOut(Some(Token::Byte(2))),
    Call::PopOut(Some(Token::Byte(3))),
    Call::Sending(0b10),
    Call::PopOut(Some(Token::Byte(4))),
    Call::Sending(0),
];

// The network of channel end 1.
const OF_NETS: [Call; 12] = [
    Call::Net(0),
    Call::SetNet(3, Ok(())),
    Call::Net(3),
    Call::SetNet(4, Err(Bad)),
    Call::SetNet(256, Err(Bad)),
    Call::SetNet(0xFFFF_FFFF, Err(Bad)),
    Call::Net(3),
    Call::Dest(None),
    Call::SetDest(0x00030102, Ok(())),
    Call::Net(3),
    Call::SetNet(0, Ok(())),
    Call::Net(0),
];

// The calls on channel end 2, which is not in use.
const OF_UNUSED: [Call; 13] = [
    Call::Used(false),
    Call::SetDest(0x00030102, Err(Bad)),
    Call::Dest(None),
    Call::SetNet(2, Err(Bad)),
    Call::Net(0),
    Call::Put(END, Put::Bad),
    Call::PutWord(1, Put::Bad),
    Call::TakeWord(Take::Bad),
    Call::TakeByte(Take::Bad),
    Call::TakeCtrl(Take::Bad),
    Call::Check(1, Take::Bad),
    Call::Look(Take::Bad),
    Call::LookWord(Take::Bad),
];

// Whether a call on channel end `c` answers what is wanted.
fn answers(ends: &mut ChanEnds, c: u8, call: Call) -> bool
    requires { c < 32 }
{
    match call {
        Call::Used(want) => ends.used(c) == want,
        Call::SetDest(id, want) => ends.set_dest(c, id) == want,
        Call::Dest(want) => ends.dest(c) == want,
        Call::SetNet(n, want) => ends.set_net(c, n) == want,
        Call::Net(want) => ends.net(c) == want,
        Call::Put(t, want) => ends.put(c, t) == want,
        Call::PutWord(w, want) => ends.put_word(c, w) == want,
        Call::FirstOut(want) => ends.first_out(c) == want,
        Call::PopOut(want) => ends.pop_out(c) == want,
        Call::PushIn(t, want) => ends.push_in(c, t) == want,
        Call::FirstIn(want) => ends.first_in(c) == want,
        Call::HasRoom(count, want) => ends.has_room(c, count) == want,
        Call::HasTokens(count, want) => ends.has_tokens(c, count) == want,
        Call::TakeWord(want) => ends.take_word(c) == want,
        Call::TakeByte(want) => ends.take_byte(c) == want,
        Call::TakeCtrl(want) => ends.take_ctrl(c) == want,
        Call::Check(v, want) => ends.check(c, v) == want,
        Call::Look(want) => ends.look(c) == want,
        Call::LookWord(want) => ends.look_word(c) == want,
        Call::Sending(want) => ends.sending() == want,
        Call::Ready(want) => ends.ready() == want,
    }
}

// Makes calls on channel end `c`, in turn.
fn make(rt: &impl Abort, ends: &mut ChanEnds, c: u8, calls: &[Call])
    requires { c < 32 }
{
    for (n, call) in calls.iter().enumerate() {
        assert!(rt; answers(ends, c, *call), "call {n} on channel end {c}");
    }
}

// The channel ends of node 3, with 0 and 1 in use.
fn two_in_use(rt: &impl Abort) -> ChanEnds {
    let mut ends = ChanEnds::new(3);
    let got = [ends.alloc(), ends.alloc()];
    assert!(rt; got == [Some(0), Some(1)]);
    ends
}

#[test]
fn calls_answer_in_turn(rt: HostRuntime) {
    let mut ends = two_in_use(&rt);
    make(&rt, &mut ends, 1, &OF_USED);
    make(&rt, &mut ends, 2, &OF_UNUSED);
    let mut ends = two_in_use(&rt);
    make(&rt, &mut ends, 1, &OF_TAKES);
    make(&rt, &mut ends, 1, &OF_WORDS);
    let mut ends = two_in_use(&rt);
    make(&rt, &mut ends, 1, &OF_NETS);
}

#[test]
fn a_network_is_kept_until_it_is_got_again(rt: HostRuntime) {
    let mut ends = two_in_use(&rt);
    let set = (ends.set_net(0, 2), ends.set_net(1, 1));
    let freed = (ends.free(0, false), ends.net(0), ends.set_net(0, 3));
    let kept = (ends.net(0), ends.net(1));
    let got = (ends.alloc(), ends.net(0), ends.net(1));
    assert!(rt;
        set == (Ok(()), Ok(()))
            && freed == (Ok(()), 2, Err(Bad))
            && kept == (2, 1)
            && got == (Some(0), 0, 1)
    );
}

// A state says that channel end 0 is not in use, and all else as it was.
#[test]
fn one_that_is_got_keeps_its_destination_and_its_tokens(rt: HostRuntime) {
    let mut ends = two_in_use(&rt);
    let set = (ends.set_net(0, 3), ends.set_dest(0, 0x00030102));
    let put = (ends.put(0, END), ends.push_in(0, Token::Byte(5)));
    assert!(rt; set == (Ok(()), Ok(())) && put == (Put::Done, true));
    let mut states = ends.state();
    states[0].used = false;
    let mut ends = ChanEnds::of_state(3, &states);
    let before = (ends.used(0), ends.net(0));
    let got = (ends.alloc(), ends.net(0), ends.dest(0));
    let kept = (ends.pop_out(0), ends.take_byte(0));
    assert!(rt;
        before == (false, 3)
            && got == (Some(0), 0, Some(0x00030102))
            && kept == (Some(END), Take::Got(5))
    );
}

#[test]
fn freed_where_nothing_is_left_in_it(rt: HostRuntime) {
    let mut ends = ChanEnds::new(3);
    let unused = ends.free(0, false);
    let got = (ends.alloc(), ends.set_dest(0, 0x00030102));
    let held = ends.free(0, true);
    let put = ends.put(0, END);
    let sending = ends.free(0, false);
    assert!(rt;
        got == (Some(0), Ok(())) && put == Put::Done && [unused, held, sending] == [Err(Bad); 3]
    );
    let popped = (ends.pop_out(0), ends.push_in(0, END), ends.free(0, false));
    let checked = ends.check(0, 1);
    let freed = (ends.free(0, false), ends.used(0));
    assert!(rt;
        popped == (Some(END), true, Err(Bad)) && checked == Take::Got(1) && freed == (Ok(()), false)
    );
    assert!(rt; ends.alloc() == Some(0));
    assert!(rt; ends.dest(0) == None);
}

#[test]
fn masks_tell_where_tokens_wait(rt: HostRuntime) {
    let mut ends = two_in_use(&rt);
    let set = ends.set_dest(1, 0x00030102);
    let put = ends.put(1, END);
    let pushed = [ends.push_in(0, END), ends.push_in(31, END)];
    assert!(rt; set == Ok(()) && put == Put::Done && pushed == [true, true]);
    assert!(rt; ends.sending() == 0x0000_0002 && ends.ready() == 0x8000_0001);
    let checked = ends.check(0, 1);
    let ready = ends.ready();
    let popped = ends.pop_out(1);
    assert!(rt;
        checked == Take::Got(1)
            && ready == 0x8000_0000
            && popped == Some(END)
            && ends.sending() == 0
    );
}

#[test]
fn thirty_two_are_there(rt: HostRuntime) {
    let mut ends = ChanEnds::new(3);
    for c in 0..33 {
        let want = if c < 32 { Some(c) } else { None };
        assert!(rt; ends.alloc() == want);
    }
}
