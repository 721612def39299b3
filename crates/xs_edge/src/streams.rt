// Sources over readers, sinks over writers, and those over the standard streams.
ghost use Rattle.std.specs.Prelude.{◌≡◌, ◌<◌, ℕ, List, Result, length, IfOk};
ghost use Rattle.std.specs.Io.{ReadsAtMost, WritesAtMost};
ghost use Rattle.std.specs.Io.KnownBytes.{ReadConsumes, WriteAppends};
ghost use Rattle.std.specs.declared.io.Error.{Error};
ghost use Rattle.xs_edge.specs.Calls.{TellsRead, TellsWrite};

use crate::{Failed, Sink, Source, risen};
use std::io::{self, ErrorKind, Read, Stdin, Stdout, Write};
use std::marker::Model;

/// A reader whose reads contracts can follow one by one.
pub trait FollowedRead: Read {
    /// What one read into a buffer of so many bytes may answer and leave behind.
    ghost reads: { Self → ℕ → Result ℕ Error → Self → Type 0 };

    /// One read, as `Read::read` makes it.
    fn read_once(&mut self, buf: &mut [u8]) -> io::Result<usize>
        ensures reads { reads self.old (length buf.new) result self.new }
        ensures bound { ReadsAtMost result buf.new }
        ensures bytes { ReadConsumes (Self.remaining self.old) (Self.remaining self.new) result buf.new };
}

/// A writer whose writes contracts can follow one by one.
pub trait FollowedWrite: Write {
    /// What one write of a piece may answer and leave behind.
    ghost writes: { Self → List ℕ → Result ℕ Error → Self → Type 0 };

    /// One write, as `Write::write` makes it.
    fn write_once(&mut self, piece: &[u8]) -> io::Result<usize>
        ensures writes { writes self.old piece.now result self.new }
        ensures bound { WritesAtMost result piece.now }
        ensures bytes { WriteAppends (Self.contents self.old) (Self.contents self.new) result piece.now };
}

/// Any reader or writer of std. Of its reads and writes contracts know what std says, and don't follow them one by one.
#[derive(Drop)]
pub struct Plain<S>(pub S);

impl<R: Read> Read for Plain<R> {
    ghost remaining = { λ plain. R.remaining plain.0 };

    fn read(&mut self, buf: &mut [u8]) -> io::Result<usize> {
        self.0.read(buf)
    }
}

impl<R: Read> FollowedRead for Plain<R> {
    ghost reads = { λ _ _ _ _. Unit {0} };

    fn read_once(&mut self, buf: &mut [u8]) -> io::Result<usize> {
        self.read(buf)
    }
}

impl<W: Write> Write for Plain<W> {
    ghost contents = { λ plain. W.contents plain.0 };

    fn write(&mut self, piece: &[u8]) -> io::Result<usize> {
        self.0.write(piece)
    }

    fn flush(&mut self) -> io::Result<()> {
        self.0.flush()
    }
}

impl<W: Write> FollowedWrite for Plain<W> {
    ghost writes = { λ _ _ _ _. Unit {0} };

    fn write_once(&mut self, piece: &[u8]) -> io::Result<usize> {
        self.write(piece)
    }
}

/// A source over a reader. What is left is what the reader has left, where it tells it. Contracts see it as a `Stream`:
/// the reader, and how often a read has failed.
#[derive(Drop)]
pub struct StreamSource<R> {
    from: R,
    faults: u64,
}

impl<R> Model for StreamSource<R> {
    ghost use Rattle.xs_edge.specs.Stores.{Stream};

    ghost Value = { Stream R };

    ghost view = { λ source. record { stream = source.from; faults = source.faults } };
}

impl<R: FollowedRead> StreamSource<R> {
    /// A source over this reader, with no fault yet.
    pub fn over(from: R) -> StreamSource<R>
        ensures stream { result.stream ≡ from }
        ensures faults { result.faults ≡ 0 }
    {
        StreamSource { from, faults: 0 }
    }

    /// The reader.
    pub fn into_inner(self) -> R
        ensures { result ≡ self.stream }
    {
        self.from
    }
}

impl<R: FollowedRead> Source for StreamSource<R> {
    ghost left = { λ source. R.remaining source.stream };

    ghost faults = { λ source. source.faults };

    ghost read_gives = { λ old room answered new. TellsRead R.reads old.stream room answered new.stream };

    /// One read of the reader, made again where a signal cut it short. Where `buf` isn't empty, 0 is the end of the
    /// input. `Failed` comes exactly where the read fails otherwise, and in the end where 2^64 - 1 reads were cut short.
    fn read(&mut self, buf: &mut [u8]) -> Result<usize, Failed> {
        match read_again(&mut self.from, buf) {
            Ok(count) => Ok(count),
            Err(failed) => {
                self.faults = risen(self.faults);
                Err(failed)
            }
        }
    }
}

// One read, made again where a signal cut it short.
fn read_again<R: FollowedRead>(from: &mut R, buf: &mut [u8]) -> Result<usize, Failed>
    ensures gives { TellsRead R.reads from.old (length buf.new) result from.new }
    ensures bound { ReadsAtMost result buf.new }
    ensures bytes { ReadConsumes (R.remaining from.old) (R.remaining from.new) result buf.new }
{
    for _turn in 0..u64::MAX {
        match from.read_once(buf) {
            Ok(count) => return Ok(count),
            Err(error) if error.kind() == ErrorKind::Interrupted => {}
            Err(_) => return Err(Failed),
        }
    }
    Err(Failed)
}

/// A sink over a writer. What is written is what the writer holds, where it tells it. Contracts see it as a `Stream`:
/// the writer, and how often a write has failed.
#[derive(Drop)]
pub struct StreamSink<W> {
    to: W,
    faults: u64,
}

impl<W> Model for StreamSink<W> {
    ghost use Rattle.xs_edge.specs.Stores.{Stream};

    ghost Value = { Stream W };

    ghost view = { λ sink. record { stream = sink.to; faults = sink.faults } };
}

impl<W: FollowedWrite> StreamSink<W> {
    /// A sink over this writer, with no fault yet.
    pub fn over(to: W) -> StreamSink<W>
        ensures stream { result.stream ≡ to }
        ensures faults { result.faults ≡ 0 }
    {
        StreamSink { to, faults: 0 }
    }

    /// The writer.
    pub fn into_inner(self) -> W
        ensures { result ≡ self.stream }
    {
        self.to
    }
}

impl<W: FollowedWrite> Sink for StreamSink<W> {
    ghost written = { λ sink. W.contents sink.stream };

    ghost faults = { λ sink. sink.faults };

    ghost put_gives = { λ old piece answered new. TellsWrite W.writes old.stream piece answered new.stream };

    /// One write of the writer, made again where a signal cut it short before it took a byte. `Failed` comes exactly
    /// where the write fails otherwise, where it takes no byte of a piece that isn't empty, and in the end where
    /// 2^64 - 1 writes were cut short.
    fn put(&mut self, piece: &[u8]) -> Result<usize, Failed> {
        match write_again(&mut self.to, piece) {
            Ok(count) => Ok(count),
            Err(failed) => {
                self.faults = risen(self.faults);
                Err(failed)
            }
        }
    }
}

// One write, made again where a signal cut it short. None of a piece that isn't empty is a failure.
fn write_again<W: FollowedWrite>(to: &mut W, piece: &[u8]) -> Result<usize, Failed>
    ensures gives { TellsWrite W.writes to.old piece.now result to.new }
    ensures bound { WritesAtMost result piece.now }
    ensures some { IfOk result (λ n. 0 < length piece.now → 0 < n) }
    ensures bytes { WriteAppends (W.contents to.old) (W.contents to.new) result piece.now }
{
    for _turn in 0..u64::MAX {
        match to.write_once(piece) {
            Ok(count) if count > 0 || piece.is_empty() => return Ok(count),
            Err(error) if error.kind() == ErrorKind::Interrupted => {}
            _ => return Err(Failed),
        }
    }
    Err(Failed)
}

/// Standard input. It tells no content.
pub type StdSource = StreamSource<Plain<Stdin>>;

impl<R: Read> StreamSource<Plain<R>> {
    /// A source over any reader, with no fault yet.
    pub fn new(from: R) -> StreamSource<Plain<R>>
        ensures stream { result.stream.0 ≡ from }
        ensures faults { result.faults ≡ 0 }
    {
        StreamSource::over(Plain(from))
    }
}

/// Standard output. It tells no content.
pub type StdSink = StreamSink<Plain<Stdout>>;

impl<W: Write> StreamSink<Plain<W>> {
    /// A sink over any writer, with no fault yet.
    pub fn new(to: W) -> StreamSink<Plain<W>>
        ensures stream { result.stream.0 ≡ to }
        ensures faults { result.faults ≡ 0 }
    {
        StreamSink::over(Plain(to))
    }
}
