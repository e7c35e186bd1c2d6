//! Reading the message from the input.

ghost use Rattle.std.specs.Prelude.{◌≡◌, IfOk, IfErr, IfSome, Ok};
ghost use Rattle.std.specs.Io.BufRead.{ends_with_byte, first_line, strip_last};
ghost use Rattle.hex.specs.Hex.{decode_of};
ghost use Rattle.zone_reply.specs.Answers.{IsFirstMessage, IsRefusedInput};

use crate::command::Refusal;
use std::alloc::Global;
use std::io::{self, BufRead, BufReader, Read};
use wire_names::hex_lines::bytes_of;

/// Takes the last byte off a line where it is this one; whether it was.
fn pop_byte(line: &mut Vec<u8>, byte: u8) -> bool
    ensures popped { result ≡ ends_with_byte byte line.old.items }
    ensures rest { line.new.items ≡ strip_last byte line.old.items }
{
    let ends = line.last() == Some(&byte);
    if ends {
        line.pop();
    }
    ends
}

/// The bytes before the first newline, LF or CR LF, or before the end where there is none.
fn first_line<R: Read>(alloc: Global, reader: &mut R) -> io::Result<Vec<u8>>
    ensures { IfOk result (λ line. IfSome (R.remaining reader.old) (λ bytes. line.items ≡ first_line bytes)) }
{
    let mut line = Vec::new(alloc);
    BufReader::new(alloc, reader)?.read_until(b'\n', &mut line)?;
    if pop_byte(&mut line, b'\n') {
        pop_byte(&mut line, b'\r');
    }
    Ok(line)
}

/// What a fault of the input is told as.
fn input_refusal(e: &io::Error) -> Refusal
    ensures { IsRefusedInput result }
{
    match e.kind() {
        io::ErrorKind::OutOfMemory => Refusal::Memory,
        _ => Refusal::NotHex,
    }
}

/// The bytes that a line of hex digits stands for.
fn decode(alloc: Global, line: &[u8]) -> Result<Vec<u8>, Refusal>
    ensures ok { IfOk result (λ bytes. decode_of line.now ≡ Ok bytes.items) }
    ensures err { IfErr result (λ e. IsRefusedInput e) }
{
    bytes_of(alloc, line)?.ok_or(Refusal::NotHex)
}

/// The message that the first line of the input spells in hex digits.
pub fn message<R: Read>(alloc: Global, reader: &mut R) -> Result<Vec<u8>, Refusal>
    ensures ok { IfOk result (λ message. IsFirstMessage (R.remaining reader.old) message.items) }
    ensures err { IfErr result (λ e. IsRefusedInput e) }
{
    match first_line(alloc, reader) {
        Ok(line) => decode(alloc, line.as_slice()),
        Err(e) => Err(input_refusal(&e)),
    }
}
