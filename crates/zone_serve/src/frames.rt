//! Messages in a stream, each after its length in two bytes (RFC 1035 section 4.2.2).

ghost use Rattle.std.specs.Prelude.{◌≡◌, ◌<◌, IfOk, None, OnOk, Some, if◌then◌else◌, length};
ghost use Rattle.std.specs.Io.KnownBytes.{Consumes, IsAtEnd};
ghost use Rattle.server.specs.Frames.{IsFrame};
ghost use Rattle.zone_serve.specs.Frames.{Filled, GivesNext};

use std::alloc::{AllocError, AllocFailed, Global};
use std::io::{self, Read};
use thiserror::Error;

/// Why a stream gives no message.
#[derive(Clone, Copy, Debug, PartialEq, Eq, Error)]
pub enum StreamFault {
    /// It ends within a message, or within its length.
    #[error("the input ends within a message")]
    Partial,
    /// A message has more than 65,535 bytes.
    #[error("a message has more than 65535 bytes")]
    TooLong,
    /// It cannot be read.
    #[error("the input cannot be read")]
    Read,
    /// Memory was refused.
    #[error("no memory")]
    Memory,
}

impl From<AllocError> for StreamFault {
    fn from(_e: AllocError) -> StreamFault {
        StreamFault::Memory
    }
}

impl<T: Drop> From<AllocFailed<T>> for StreamFault {
    fn from(_e: AllocFailed<T>) -> StreamFault {
        StreamFault::Memory
    }
}

/// Fills a buffer as far as the input goes: how many bytes of it are filled.
fn fill<R: Read>(reader: &mut R, buffer: &mut [u8]) -> Result<usize, StreamFault>
    ensures { IfOk result (λ count. Filled (R.remaining reader.old) (R.remaining reader.new) buffer.new count) }
{
    let mut at = 0;
    for _ in 0..u64::MAX {
        if at >= buffer.len() {
            return Ok(at);
        }
        match reader.read(&mut buffer[at..]) {
            Ok(0) => return Ok(at),
            Ok(count) => at += count,
            Err(e) => {
                if e.kind() != io::ErrorKind::Interrupted {
                    return Err(StreamFault::Read);
                }
            }
        }
    }
    Err(StreamFault::Read)
}

/// Puts the next bytes of a stream, so many, in the place of others. After an error nothing is known of either.
fn read_message<R: Read>(
    reader: &mut R,
    size: usize,
    message: &mut Vec<u8>,
) -> Result<(), StreamFault>
    ensures { OnOk result ((length message.new.items ≡ size) ×
        Consumes (R.remaining reader.old) (R.remaining reader.new) message.new.items) }
{
    message.resize(size, 0)?;
    if fill(reader, message)? < size {
        return Err(StreamFault::Partial);
    }
    Ok(())
}

/// The next bytes of a reader: so many, or all that are left.
fn up_to<R: Read>(alloc: Global, reader: &mut R, most: usize) -> Result<Vec<u8>, StreamFault>
    ensures bytes { IfOk result (λ bytes. Consumes (R.remaining reader.old) (R.remaining reader.new) bytes.items) }
    ensures end { IfOk result (λ bytes. length bytes.items < most → IsAtEnd (R.remaining reader.new)) }
{
    let mut bytes = vec![in alloc; 0; most]?;
    let count = fill(reader, &mut bytes)?;
    bytes.truncate(count);
    Ok(bytes)
}

/// One more than the bytes that a datagram has at most (RFC 768).
const TOO_MANY: usize = 65_536;

/// All bytes of an input that is one datagram. They are read to the end, and are at most 65,535.
pub fn datagram<R: Read>(alloc: Global, reader: &mut R) -> Result<Vec<u8>, StreamFault>
    ensures { IfOk result (λ bytes. Consumes (R.remaining reader.old) (R.remaining reader.new) bytes.items ×
        IsAtEnd (R.remaining reader.new)) }
{
    let bytes = up_to(alloc, reader, TOO_MANY)?;
    if bytes.len() < TOO_MANY {
        Ok(bytes)
    } else {
        Err(StreamFault::TooLong)
    }
}

/// Puts the next message of a stream in the place of other bytes, whose memory is used again; whether there is one
/// before the stream's end. No byte after the message is read.
// speed: served, an address
pub fn next_message_in<R: Read>(reader: &mut R, message: &mut Vec<u8>) -> Result<bool, StreamFault>
    ensures { IfOk result (λ found. GivesNext (R.remaining reader.old) (R.remaining reader.new)
        (if found then Some message.new.items else None)) }
{
    let mut length = [0u8; 2];
    let count = fill(reader, &mut length)?;
    match &length[..count] {
        [] => Ok(false),
        [high, low] => {
            let size = 256 * usize::from(*high) + usize::from(*low);
            read_message(reader, size, message)?;
            Ok(true)
        }
        _ => Err(StreamFault::Partial),
    }
}

/// Puts a message after its length in the place of other bytes, whose memory is used again.
// speed: served, an address
pub fn put_framed(framed: &mut Vec<u8>, message: &[u8]) -> Result<(), StreamFault>
    ensures { OnOk result (IsFrame framed.new.items message.now) }
{
    let (Ok(high), Ok(low)) = (
        u8::try_from(message.len() / 256),
        u8::try_from(message.len() % 256),
    ) else {
        return Err(StreamFault::TooLong);
    };
    framed.clear();
    framed.reserve(2 + message.len())?;
    framed.push(high)?;
    framed.push(low)?;
    framed.extend_from_slice(message)?;
    Ok(())
}
