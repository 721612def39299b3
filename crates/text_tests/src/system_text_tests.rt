//! System texts that are read and some that are refused. The cases of gate_runs try the others.
use crate::refusals::each_is_refused;
use std::alloc::Global;
use std::test::Fail;
use sys_plan::Step;
use system_text::{PinKind, SysKind, SystemError, read_system};

#[test]
fn pair(rt: HostRuntime) -> Result<(), Fail> {
    let text =
        b"# a pair\r\n\n xs1\t1 // edition\nnode 007 id 0x1\nsource 0x7//x\nend:\nend # of it\nnode 3 id 00\nlink 0x7:0x0 03:00 delay 0x3e8 gap 1000\nbit 7 0xf 0x0#\nsource 3\nnop\nend\nbit 3 0 0";
    let plan = read_system(rt.alloc(), text)?;
    let [low, high] = plan.nodes() else {
        return Err(Fail::from("two nodes"));
    };
    assert!(rt;
        (low.number, low.id) == (3, 0)
            && low.image.code().len() == 1
            && low.ways == [1, 0, 0, 0, 0, 0, 0, 0, 0, 0, 0, 0, 0, 0, 0, 0]
    );
    assert!(rt;
        (high.number, high.id) == (7, 1)
            && high.image.code().is_empty()
            && high.ways == [0, 0, 0, 0, 0, 0, 0, 0, 0, 0, 0, 0, 0, 0, 0, 1]
    );
    assert!(rt;
        matches!(plan.links(), [link] if (link.a, link.b) == (1, 0) && (link.delay, link.gap) == (1000, 1000))
    );
    Ok(())
}

#[test]
fn editions(rt: HostRuntime) -> Result<(), Fail> {
    for (text, edition) in [
        (
            b"xs1 1\nnode 9 id 3\nnode 5 id 1\nsource 9\nend\nsource 5\nend".as_slice(),
            1,
        ),
        (
            b"\n xs1\t2# the second\nnode 9 id 3\nnode 5 id 1\nsource 9\nend\nsource 5\nend".as_slice(),
            2,
        ),
    ] {
        let plan = read_system(rt.alloc(), text)?;
        let [low, high] = plan.nodes() else {
            return Err(Fail::from("two nodes"));
        };
        assert!(rt; (low.edition, high.edition) == (edition, edition));
    }
    Ok(())
}

#[test]
fn three_in_a_line(rt: HostRuntime) -> Result<(), Fail> {
    let text =
        b"xs1 1\nnode 9 id 3\nnode 5 id 1\nnode 7 id 2\nlink 5:7 9:0 delay 1 gap 4\nlink 7:3 5:2 delay 2 gap 5\nbit 5 1 7 2\nsource 5\nend\nsource 9\nend\nsource 7\nend";
    let plan = read_system(rt.alloc(), text)?;
    let [first, _, _] = plan.nodes() else {
        return Err(Fail::from("three nodes"));
    };
    assert!(rt;
        first.number == 5 && first.ways == [0, 132, 0, 0, 0, 0, 0, 0, 0, 0, 0, 0, 0, 0, 0, 0]
    );
    let [a, b] = plan.links() else {
        return Err(Fail::from("two links"));
    };
    assert!(rt;
        (a.a, a.a_end, a.b, a.b_end) == (0, 7, 2, 0) && (b.a, b.a_end, b.b, b.b_end) == (1, 3, 0, 2)
    );
    Ok(())
}

#[test]
fn networks_of_links(rt: HostRuntime) -> Result<(), Fail> {
    let text =
        b"xs1 2\nnode 9 id 3\nnode 5 id 1\nlink 5:7 9:0 delay 1 gap 4 net 0x3\nlink 9:3 5:2 delay 2 gap 5 net 1 # one\nlink 5:4 9:6 delay 1 gap 4 net 0\nlink 5:5 9:5 delay 1 gap 4\nsource 5\nend\nsource 9\nend";
    let plan = read_system(rt.alloc(), text)?;
    let [low, high] = plan.nodes() else {
        return Err(Fail::from("two nodes"));
    };
    assert!(rt; low.nets == [0, 0, 1, 0, 0, 0, 0, 3] && high.nets == [3, 0, 0, 1, 0, 0, 0, 0]);
    let [a, b, c, d] = plan.links() else {
        return Err(Fail::from("four links"));
    };
    assert!(rt; [a.net, b.net, c.net, d.net] == [3, 1, 0, 0]);
    Ok(())
}

#[test]
fn wires_beside_a_link(rt: HostRuntime) -> Result<(), Fail> {
    let text =
        b"xs1 2\nnode 9 id 3\nnode 5 id 1\nwire 9:32A 5:32A delay 0x3e8\nlink 5:7 9:0 delay 1 gap 4\nwire 5:1P 9:1A delay 1 # back\nplay\nsend 9:8\ntake 5:8\nsend 5:8\ntake 5:7\nend\nsource 5\nend\nsource 9\nend";
    let plan = read_system(rt.alloc(), text)?;
    let [a, b] = plan.wires() else {
        return Err(Fail::from("two wires"));
    };
    assert!(rt;
        (a.a, a.a_port, a.b, a.b_port, a.delay) == (1, 28, 0, 28, 1000)
            && (b.a, b.a_port, b.b, b.b_port, b.delay) == (0, 15, 1, 0, 1)
    );
    assert!(rt;
        matches!(
            plan.steps(),
            [
                Step::Send { node: 1, end: 8 },
                Step::Take { node: 0, end: 8 },
                Step::Send { node: 0, end: 8 },
                Step::Take { node: 0, end: 7 },
            ]
        )
    );
    Ok(())
}

#[test]
fn pin_script_before_its_nodes(rt: HostRuntime) -> Result<(), Fail> {
    let text =
        b"xs1 1\npins # of both\n# slots\n5 3:4A 15\n\n  0x9 7:1B 1 // last\n end\nnode 7 id 1\nnode 3 id 0\nsource 7\nend\nsource 3\nend";
    let plan = read_system(rt.alloc(), text)?;
    let [a, b] = plan.script().lines() else {
        return Err(Fail::from("two lines"));
    };
    assert!(rt;
        (a.slot, a.node, a.port, a.value) == (5, 3, 16, 15)
            && (b.slot, b.node, b.port, b.value) == (9, 7, 1, 1)
    );
    Ok(())
}

#[test]
fn schedule_between_the_sources(rt: HostRuntime) -> Result<(), Fail> {
    let text =
        b"xs1 1\nnode 7 id 1\nnode 3 id 0\nlink 7:2 3:5 delay 5 gap 4\nsource 7\nend\nplay # it\nrun 007 0x10\n\n# nothing\nsend 7:0x2 // now\nrun 3\ntake\t3:5\n end # of it\nsource 3\nend";
    let plan = read_system(rt.alloc(), text)?;
    assert!(rt;
        matches!(
            plan.steps(),
            [
                Step::Run { node: 1, count: 16 },
                Step::Send { node: 1, end: 2 },
                Step::Run { node: 0, count: 1 },
                Step::Take { node: 0, end: 5 },
            ]
        )
    );
    Ok(())
}

// Where and why the pin script of a system text is refused.
fn script_refusal(alloc: Global, text: &[u8]) -> Option<(u32, PinKind)> {
    match read_system(alloc, text) {
        Err(SystemError::Pins { line, kind }) => Some((line, kind)),
        _ => None,
    }
}

static REFUSED_SCRIPTS: [(&[u8], u32, PinKind); 3] = [
    (
        b"xs1 1\nnode 0 id 0\npins\nsource 0\nend\nsource 0\nend",
        1,
        PinKind::BadLine,
    ),
    (
        b"xs1 1\npins\n9 0:4A 1\n8 0:4A 2\nend\nnode 0 id 0\nsource 0\nend",
        2,
        PinKind::SlotFalls,
    ),
    (b"xs1 1\npins\n\n1 0:4A 1\nend", 2, PinKind::NoSuchNode),
];

#[test]
fn pin_script_refusals(rt: HostRuntime) {
    let alloc = rt.alloc();
    each_is_refused(&rt, &REFUSED_SCRIPTS, |text| script_refusal(alloc, text));
}

// Where and why a line of a system text is refused that is in no section.
fn refusal(alloc: Global, text: &[u8]) -> Option<(u32, SysKind)> {
    match read_system(alloc, text) {
        Err(SystemError::Frame { line, kind }) => Some((line, kind)),
        _ => None,
    }
}

static REFUSED: [(&[u8], u32, SysKind); 21] = [
    (b"xs1 3\n", 1, SysKind::FirstLine),
    (b"xs1 02\n", 1, SysKind::FirstLine),
    (b"# a\nxs1 2 x\n", 2, SysKind::FirstLine),
    (b"xs1 2\nxs1 2\n", 2, SysKind::BadLine),
    (
        b"xs1 1\nnode 0 id 0\nnode 1 id 1\nlink 0:0 1:0 delay 5 gap 4 net 0",
        4,
        SysKind::BadLine,
    ),
    (
        b"xs1 2\nnode 0 id 0\nnode 1 id 1\nlink 0:0 1:0 delay 0 gap 4 net x",
        4,
        SysKind::BadLine,
    ),
    (
        b"xs1 2\nnode 0 id 0\nnode 1 id 1\nlink 0:0 1:0 delay 5 gap 4 net 256",
        4,
        SysKind::NumberOutOfRange,
    ),
    (b"xs1 1\npins\nfoo\nend\npins\n", 5, SysKind::GivenTwice),
    (
        b"xs1 1\nnode 0 id 0\npins\nend:\n",
        3,
        SysKind::SectionNotEnded,
    ),
    (b"xs1 1\nnode 0 id 0\n", 2, SysKind::NodeWithoutSource),
    (
        b"xs1 1\nnode 0 id 0\nnode 1 id 1\nnode 2 id 2\nlink 0:0 1:0 delay 5 gap 4\nlink 0:1 1:0 delay 5 gap 4",
        6,
        SysKind::LinkEndTwice,
    ),
    (
        b"xs1 1\nnode 0 id 0\nnode 1 id 1\nlink 0:0 1:0 delay 5 gap 4\nbit 0 0 0 0",
        5,
        SysKind::LinkEndTwice,
    ),
    (
        b"xs1 1\nnode 0 id 0\nnode 1 id 1\nlink 0:0 1:0 delay 5 gap 4\nbit 0 0 0 1",
        5,
        SysKind::NoSuchNode,
    ),
    (
        b"xs1 1\nlink 0:8 1:0 delay 5 gap 4",
        2,
        SysKind::NumberOutOfRange,
    ),
    (b"xs1 1\nlink 0:8 1:x delay 5 gap 4", 2, SysKind::BadLine),
    (b"xs1 1\nbit 0 0 0 1 2 3 4 5 6 7 7", 2, SysKind::BadLine),
    (
        b"xs1 1\nnode 0 id 0\nplay\nrun 0 1000001\nend",
        4,
        SysKind::NumberOutOfRange,
    ),
    (
        b"xs1 1\nnode 0 id 0\nplay\nrun 0\ntake 0:0\nend",
        5,
        SysKind::NoSuchNode,
    ),
    (
        b"xs1 1\nnode 0 id 0\nplay\nrun 0 1\n",
        3,
        SysKind::SectionNotEnded,
    ),
    (b"xs1 1\nplay\nend\nplay\nfoo", 4, SysKind::GivenTwice),
    (
        b"xs1 1\n\
          node 0 id 0\nnode 1 id 1\nnode 2 id 2\nnode 3 id 3\nnode 4 id 4\n\
          node 5 id 5\nnode 6 id 6\nnode 7 id 7\nnode 8 id 8\nnode 9 id 9\n\
          node 10 id 10\nnode 11 id 11\nnode 12 id 12\nnode 13 id 13\nnode 14 id 14\n\
          node 15 id 15\nnode 16 id 16",
        18,
        SysKind::TooMany,
    ),
];

#[test]
fn refusals(rt: HostRuntime) {
    let alloc = rt.alloc();
    each_is_refused(&rt, &REFUSED, |text| refusal(alloc, text));
}
