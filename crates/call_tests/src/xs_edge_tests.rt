//! The sources and sinks, each at a concrete type. No expected value comes from the program.
ghost use Rattle.std.specs.Prelude.{◌≤◌, IfOk};

use std::io::{self, ErrorKind, Read, Write};
use std::test::Fail;
use xs_edge::{
    Counted, CountingSource, DripSink, DripSource, Failed, FailingSink, FailingSource, Gate,
    ListSink, ListSource, OnceSink, OnceSource, OpenGate, Sink, Source, StdSink, StdSource,
    StreamSink, StreamSource, read_makes_one_call,
};

// Whether reads into three bytes, dots at first, answer so and leave these bytes there.
fn gives<S: Source>(source: &mut S, expected: &[(Result<usize, Failed>, [u8; 3])]) -> bool {
    let mut buf = [b'.'; 3];
    for (answer, left) in expected {
        if source.read(&mut buf) != *answer || buf != *left {
            return false;
        }
    }
    true
}

// Whether these pieces are answered so.
fn takes<K: Sink>(sink: &mut K, expected: &[(&[u8], Result<usize, Failed>)]) -> bool {
    for (piece, answer) in expected {
        if sink.put(piece) != *answer {
            return false;
        }
    }
    true
}

#[test]
fn sources_over_memory(rt: HostRuntime) -> Result<(), Fail> {
    let mut whole = ListSource::new(b"abcde".to_vec(rt.alloc())?);
    assert!(rt;
        gives(
            &mut whole,
            &[(Ok(3), *b"abc"), (Ok(2), *b"dec"), (Ok(0), *b"dec")]
        )
    );
    let mut broken = FailingSource::new(b"abcde".to_vec(rt.alloc())?, 4);
    assert!(rt;
        gives(
            &mut broken,
            &[
                (Ok(3), *b"abc"),
                (Ok(1), *b"dbc"),
                (Err(Failed), *b"dbc"),
                (Err(Failed), *b"dbc"),
            ]
        )
    );
    Ok(())
}

#[test]
fn counts_its_reads(rt: HostRuntime) -> Result<(), Fail> {
    let mut source = CountingSource::new(b"abcde".to_vec(rt.alloc())?);
    let mut buf = [b'.'; 3];
    for (count, reads, want) in [(3, 1, *b"abc"), (2, 2, *b"dec"), (0, 3, *b"dec")] {
        let answer = source.read(&mut buf);
        assert!(rt; answer == Ok(count) && source.reads() == reads && buf == want);
    }
    Ok(())
}

#[test]
fn sinks_over_memory(rt: HostRuntime) -> Result<(), Fail> {
    let mut full = ListSink::with_room(rt.alloc(), 5)?;
    let fills = takes(
        &mut full,
        &[
            (b"abc", Ok(3)),
            (b"def", Ok(2)),
            (b"", Ok(0)),
            (b"f", Err(Failed)),
        ],
    );
    assert!(rt; fills && full.bytes() == b"abcde".as_slice());
    let mut broken = FailingSink::new(rt.alloc(), 4)?;
    let breaks = takes(
        &mut broken,
        &[
            (b"abc", Ok(3)),
            (b"", Ok(0)),
            (b"de", Ok(1)),
            (b"", Err(Failed)),
            (b"e", Err(Failed)),
        ],
    );
    assert!(rt; breaks && broken.bytes() == b"abcd".as_slice());
    Ok(())
}

#[test]
fn moves_a_byte_at_a_time(rt: HostRuntime) -> Result<(), Fail> {
    let mut source = DripSource::new(b"ab".to_vec(rt.alloc())?);
    assert!(rt;
        gives(
            &mut source,
            &[(Ok(1), *b"a.."), (Ok(1), *b"b.."), (Ok(0), *b"b..")]
        )
    );
    let mut sink = DripSink::with_room(rt.alloc(), 2)?;
    let fills = takes(
        &mut sink,
        &[
            (b"abc", Ok(1)),
            (b"", Ok(0)),
            (b"bc", Ok(1)),
            (b"c", Err(Failed)),
            (b"", Ok(0)),
        ],
    );
    assert!(rt; fills && sink.bytes() == b"ab".as_slice());
    Ok(())
}

#[test]
fn fails_once_and_goes_on(rt: HostRuntime) -> Result<(), Fail> {
    let mut source = OnceSource::new(b"abcde".to_vec(rt.alloc())?, 1);
    let reads = gives(
        &mut source,
        &[
            (Ok(3), *b"abc"),
            (Err(Failed), *b"abc"),
            (Ok(2), *b"dec"),
            (Ok(0), *b"dec"),
        ],
    );
    assert!(rt; reads && source.reads() == 4);
    let mut sink = OnceSink::with_room(rt.alloc(), 4, 1)?;
    let writes = takes(
        &mut sink,
        &[
            (b"abc", Ok(3)),
            (b"de", Err(Failed)),
            (b"de", Ok(1)),
            (b"", Ok(0)),
            (b"e", Err(Failed)),
        ],
    );
    assert!(rt; writes && sink.puts() == 5 && sink.bytes() == b"abcd".as_slice());
    Ok(())
}

// One read and one write through the bounds.
fn copy_some<S: Source, K: Sink, G: Gate>(
    source: &mut S,
    sink: &mut K,
    gate: &G,
) -> Result<usize, Failed> {
    let mut buf = [0; 8];
    gate.pass(0);
    let count = source.read(&mut buf)?;
    sink.put(&buf[..count])
}

#[test]
fn writes_what_it_reads(rt: HostRuntime) -> Result<(), Fail> {
    let mut source = ListSource::new(b"ab".to_vec(rt.alloc())?);
    let mut sink = ListSink::with_room(rt.alloc(), 2)?;
    let count = copy_some(&mut source, &mut sink, &OpenGate);
    assert!(rt; count == Ok(2) && sink.bytes() == b"ab".as_slice());
    let mut source = StreamSource::new(b"abcde".as_slice());
    let mut sink = StreamSink::new(Vec::new(rt.alloc()));
    let count = copy_some(&mut source, &mut sink, &OpenGate);
    let no_more = copy_some(&mut source, &mut sink, &OpenGate);
    let copy = sink.into_inner().0;
    assert!(rt;
        count == Ok(5)
            && no_more == Ok(0)
            && copy.as_slice() == b"abcde".as_slice()
            && source.into_inner().0.is_empty()
    );
    Ok(())
}

#[test]
fn takes_standard_streams(rt: HostRuntime) {
    let mut source = StdSource::new(rt.stdin());
    let mut sink = StdSink::new(rt.stdout());
    assert!(rt; source.read(&mut []) == Ok(0) && sink.put(b"") == Ok(0));
}

// What one call on a `Fake` does: it moves so many bytes, if there are so many, or it fails.
#[derive(Clone, Copy)]
enum Turn {
    Moves(usize),
    Fails(ErrorKind),
}

// A stream whose calls do as its turns say, and move nothing once these are over.
#[derive(Drop)]
struct Fake {
    turns: &'static [Turn],
}

impl Fake {
    // How many bytes the next call moves, of so many at most.
    fn turn(&mut self, most: usize) -> io::Result<usize>
        ensures { IfOk result (λ n. n ≤ most) }
    {
        let [turn, rest @ ..] = self.turns else {
            return Ok(0);
        };
        self.turns = rest;
        match *turn {
            Turn::Moves(count) => Ok(count.min(most)),
            Turn::Fails(kind) => Err(io::Error::from(kind)),
        }
    }
}

impl Read for Fake {
    fn read(&mut self, buf: &mut [u8]) -> io::Result<usize> {
        let count = self.turn(buf.len())?;
        buf[..count].fill(b'x');
        Ok(count)
    }
}

impl Write for Fake {
    fn write(&mut self, piece: &[u8]) -> io::Result<usize> {
        self.turn(piece.len())
    }

    fn flush(&mut self) -> io::Result<()> {
        Ok(())
    }
}

#[test]
fn reads_short_and_again_and_fails(rt: HostRuntime) {
    let mut source = StreamSource::new(Fake {
        turns: &[
            Turn::Moves(2),
            Turn::Fails(ErrorKind::Interrupted),
            Turn::Fails(ErrorKind::Interrupted),
            Turn::Moves(9),
            Turn::Fails(ErrorKind::IsADirectory),
            Turn::Fails(ErrorKind::Interrupted),
            Turn::Fails(ErrorKind::Other),
            Turn::Moves(1),
        ],
    });
    assert!(rt;
        gives(
            &mut source,
            &[
                (Ok(2), *b"xx."),
                (Ok(3), *b"xxx"),
                (Err(Failed), *b"xxx"),
                (Err(Failed), *b"xxx"),
                (Ok(1), *b"xxx"),
                (Ok(0), *b"xxx"),
            ]
        )
    );
}

#[test]
fn writes_short_and_again_and_fails(rt: HostRuntime) {
    let mut sink = StreamSink::new(Fake {
        turns: &[
            Turn::Moves(2),
            Turn::Fails(ErrorKind::Interrupted),
            Turn::Fails(ErrorKind::Interrupted),
            Turn::Moves(9),
            Turn::Fails(ErrorKind::BrokenPipe),
            Turn::Moves(0),
            Turn::Fails(ErrorKind::Interrupted),
            Turn::Fails(ErrorKind::StorageFull),
            Turn::Moves(1),
        ],
    });
    assert!(rt;
        takes(
            &mut sink,
            &[
                (b"abc", Ok(2)),
                (b"abc", Ok(3)),
                (b"abc", Err(Failed)),
                (b"abc", Err(Failed)),
                (b"abc", Err(Failed)),
                (b"abc", Ok(1)),
                (b"abc", Err(Failed)),
                (b"", Ok(0)),
            ]
        )
    );
}

#[test]
fn counts_calls_that_no_signal_cut_short(rt: HostRuntime) {
    let turns = &[
        Turn::Fails(ErrorKind::Interrupted),
        Turn::Moves(2),
        Turn::Fails(ErrorKind::Other),
    ];
    let stream = Fake { turns };
    let mut source = StreamSource::over(Counted { stream, calls: 0 });
    let stream = Fake { turns };
    let mut sink = StreamSink::over(Counted { stream, calls: 0 });
    let mut buf = [b'.'; 3];
    for answer in [Ok(2), Err(Failed)] {
        let given = read_makes_one_call(&mut source, &mut buf);
        assert!(rt; given == answer && sink.put(&buf) == answer);
    }
    assert!(rt; source.into_inner().calls == 2 && sink.into_inner().calls == 2);
}
