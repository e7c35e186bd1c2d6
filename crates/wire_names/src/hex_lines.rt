//! Bytes as hex digits, and as lines of them: how the programs read messages and print replies.

ghost use Rattle.std.specs.Prelude.{◌≡◌, IfOk, IfSome, IfNone, IsOk, Ok, string_bytes};
ghost use Rattle.hex.specs.Hex.{decode_of};
ghost use Rattle.wire_names.specs.HexLines.{hex_line, hex_lines};

use crate::values::octets::Octets;
use hex::FromHexError;
use std::alloc::{AllocError, Global};

/// The bytes that hex digits stand for, two digits each in either letter case, or `None` where there is something else
/// or an odd number of digits. It takes as much memory as there are bytes; an error says that it was refused.
pub fn bytes_of(alloc: Global, digits: &[u8]) -> Result<Option<Vec<u8>>, AllocError>
    ensures some { IfOk result (λ bytes. IfSome bytes (λ it. decode_of digits.now ≡ Ok it.items)) }
    ensures none { IfOk result (λ bytes. IfNone bytes (¬ (IsOk (decode_of digits.now)))) }
{
    match hex::decode(alloc, digits) {
        Ok(bytes) => Ok(Some(bytes)),
        Err(FromHexError::OutOfMemory) => Err(AllocError),
        Err(_) => Ok(None),
    }
}

/// The line of some bytes: their hex digits in lower case and a newline. An error says that memory was refused.
pub fn line_of(alloc: Global, bytes: &[u8]) -> Result<String, AllocError>
    ensures { IfOk result (λ line. string_bytes line ≡ hex_line bytes.now) }
{
    let mut line = hex::encode(alloc, bytes)?;
    line.push('\n')?;
    Ok(line)
}

/// The lines of some texts, one behind the other. An error says that memory was refused.
pub fn lines_of(alloc: Global, texts: &[Octets]) -> Result<Vec<u8>, AllocError>
    ensures { IfOk result (λ lines. lines.items ≡ hex_lines texts.now) }
{
    let mut lines = Vec::new(alloc);
    for bytes in texts {
        lines.extend_from_slice(line_of(alloc, bytes.as_slice())?.as_bytes())?;
    }
    Ok(lines)
}
