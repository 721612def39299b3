// A stream that counts its calls, so that the reads that a source makes of it can be told.
ghost use Rattle.std.specs.Prelude.{◌≡◌, ◌≤◌, ◌⊎◌, ℕ, List, Result, length, OnOk, OnErr};
ghost use Rattle.std.specs.Io.{ReadsAtMost, WritesAtMost};
ghost use Rattle.std.specs.Io.KnownBytes.{ReadConsumes, WriteAppends};
ghost use Rattle.xs_edge.specs.Calls.{CountsCall};
ghost use Rattle.xs_edge.specs.Edge.{HasRisen};

use crate::{Failed, FollowedRead, FollowedWrite, Source, StreamSource, risen};
use std::io::{self, ErrorKind, Read, Write};

/// Any reader or writer of std, with a count of its reads and writes. One that a signal cut short isn't counted. At
/// 2^64 - 1 the count stays.
#[derive(Drop)]
pub struct Counted<S> {
    /// The reader or writer.
    pub stream: S,
    /// How many reads and writes were made that no signal cut short.
    pub calls: u64,
}

impl<R: Read> Read for Counted<R> {
    ghost remaining = { λ counted. R.remaining counted.stream };

    fn read(&mut self, buf: &mut [u8]) -> io::Result<usize> {
        self.read_once(buf)
    }
}

impl<R: Read> FollowedRead for Counted<R> {
    ghost reads = { λ old _ call new. CountsCall old.calls call new.calls };

    fn read_once(&mut self, buf: &mut [u8]) -> io::Result<usize> {
        let call = self.stream.read(buf);
        self.calls = calls_after(self.calls, &call);
        call
    }
}

impl<W: Write> Write for Counted<W> {
    ghost contents = { λ counted. W.contents counted.stream };

    fn write(&mut self, piece: &[u8]) -> io::Result<usize> {
        self.write_once(piece)
    }

    fn flush(&mut self) -> io::Result<()> {
        self.stream.flush()
    }
}

impl<W: Write> FollowedWrite for Counted<W> {
    ghost writes = { λ old _ call new. CountsCall old.calls call new.calls };

    fn write_once(&mut self, piece: &[u8]) -> io::Result<usize> {
        let call = self.stream.write(piece);
        self.calls = calls_after(self.calls, &call);
        call
    }
}

// The count after a call that answered so.
fn calls_after(calls: u64, call: &io::Result<usize>) -> u64
    ensures { CountsCall calls call.now result }
{
    match call {
        Err(error) if error.kind() == ErrorKind::Interrupted => calls,
        _ => risen(calls),
    }
}

/// One read of a source, as `Source::read` makes it, over a reader that counts. It makes exactly one read of the reader
/// besides those that a signal cut short. Where it fails it may be none: 2^64 - 1 reads were cut short then.
pub fn read_makes_one_call<R: Read>(
    source: &mut StreamSource<Counted<R>>,
    buf: &mut [u8],
) -> Result<usize, Failed>
    ensures once { OnOk result (HasRisen source.old.stream.calls source.new.stream.calls) }
    ensures failed { OnErr result (HasRisen source.old.stream.calls source.new.stream.calls ⊎ (source.new.stream.calls ≡ source.old.stream.calls)) }
{
    source.read(buf)
}
