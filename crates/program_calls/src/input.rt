//! Reading the input whole, or as much of it as shows that it is too long.
ghost use Rattle.std.specs.Prelude.{◌≡◌, ◌<◌, ◌≤◌, None, length, take, vec_len, IfOk, IfSome};
ghost use Rattle.program_calls.specs.Input.{ReadsInput, most_of, reads_of};

use std::alloc::{AllocError, Global};
use xs_edge::{Failed, Source};

// The bytes that one read may take.
const BUFFER_LENGTH: usize = 65_536;

/// Why an input was not read.
#[derive(Clone, Copy, PartialEq, Eq, Debug)]
pub enum ReadError {
    /// A read failed.
    Failed,
    /// Memory was wanting.
    Memory,
}

impl From<Failed> for ReadError {
    ghost use Rattle.std.specs.Prelude.{◌≡◌};
    ghost use Rattle.program_calls.specs.declared.input.ReadError.TheVariants as error;

    ghost from_gives = { λ _ e. e ≡ error.Failed };

    fn from(_failed: Failed) -> ReadError {
        ReadError::Failed
    }
}

impl From<AllocError> for ReadError {
    ghost use Rattle.std.specs.Prelude.{◌≡◌};
    ghost use Rattle.program_calls.specs.declared.input.ReadError.TheVariants as error;

    ghost from_gives = { λ _ e. e ≡ error.Memory };

    fn from(_error: AllocError) -> ReadError {
        ReadError::Memory
    }
}

/// The bytes of the input that are asked for: none, and then nothing is read, or at most so many.
/// `ReadError::Failed` comes only where the source's count of faults has risen, and `ReadError::Memory` where memory was wanting; the bytes
/// taken till then are lost.
pub fn read_for<S: Source>(
    alloc: Global,
    asks: Option<usize>,
    source: &mut S,
) -> Result<Vec<u8>, ReadError>
    requires { IfSome asks (λ most. 0 < most) }
    ensures input { ReadsInput S.left S.faults S.read_gives (reads_of asks) source.old source.new result }
    ensures front { IfOk result (λ bytes. IfSome (S.left source.old) (λ left. bytes.items ≡ take (most_of asks) left)) }
    ensures nothing { asks ≡ None → source.new ≡ source.old }
{
    let Some(most) = asks else {
        return Ok(Vec::new(alloc));
    };
    read_all(alloc, most, source)
}

// Reads until the input ends, a read fails, or so many bytes are taken. No more than that is ever taken, and no read is
// made after it. No read has an empty buffer. `ReadError::Failed` comes only where the source's count of faults has
// risen, and `ReadError::Memory` where memory was wanting; the bytes taken till then are lost.
fn read_all<S: Source>(alloc: Global, most: usize, source: &mut S) -> Result<Vec<u8>, ReadError>
    requires { 0 < most }
    ensures input { ReadsInput S.left S.faults S.read_gives most source.old source.new result }
    ensures front { IfOk result (λ bytes. IfSome (S.left source.old) (λ left. bytes.items ≡ take most left)) }
    ensures within { IfOk result (λ bytes. vec_len bytes ≤ most) }
{
    let mut buffer = make_buffer(alloc)?;
    read_through(alloc, most, source, &mut buffer)
}

fn make_buffer(alloc: Global) -> Result<Vec<u8>, AllocError>
    ensures { IfOk result (λ buffer. 0 < vec_len buffer) }
{
    vec![in alloc; 0; BUFFER_LENGTH]
}

// Reads so many bytes at most by way of the buffer.
fn read_through<S: Source>(
    alloc: Global,
    most: usize,
    source: &mut S,
    buffer: &mut [u8],
) -> Result<Vec<u8>, ReadError>
    requires some { 0 < most }
    requires room { 0 < length buffer.old }
    ensures input { ReadsInput S.left S.faults S.read_gives most source.old source.new result }
    ensures front { IfOk result (λ bytes. IfSome (S.left source.old) (λ left. bytes.items ≡ take most left)) }
    ensures within { IfOk result (λ bytes. vec_len bytes ≤ most) }
{
    let mut bytes = Vec::new(alloc);
    while bytes.len() < most {
        let fits = (most - bytes.len()).min(buffer.len());
        let piece = &mut buffer[..fits];
        let count = source.read(piece)?;
        if count == 0 {
            return Ok(bytes);
        }
        bytes.extend_from_slice(&piece[..count])?;
    }
    Ok(bytes)
}
