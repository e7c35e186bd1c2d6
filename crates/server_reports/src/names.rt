//! Names as they stand in a message, as text.

ghost use Rattle.std.specs.Prelude.{◌≡◌, ◌≤◌, ◌<◌, ◌++◌, ◌∷◌, [], IfOk, OnOk, length};
ghost use Rattle.server_reports.specs.QueryLines.{byte_text, dot_behind, is_plain, labels_len, labels_text, name_text};

use std::alloc::AllocError;

/// Whether a byte stands in a line as it is.
fn is_plain(byte: u8) -> bool
    ensures { result ≡ is_plain byte }
{
    byte.is_ascii_alphanumeric() || byte == b'-' || byte == b'_' || byte == b'*'
}

/// Puts a byte of a label.
fn put_byte(byte: u8, line: &mut Vec<u8>) -> Result<(), AllocError>
    ensures { OnOk result (line.new.items ≡ line.old.items ++ byte_text byte) }
{
    if is_plain(byte) {
        line.push(byte)?;
    } else {
        line.extend_from_slice(&[
            b'\\',
            b'0' + byte / 100,
            b'0' + byte / 10 % 10,
            b'0' + byte % 10,
        ])?;
    }
    Ok(())
}

/// Puts a byte of a label of which so many are left behind it, and behind the last a dot.
fn put_in_label(byte: u8, left: u8, line: &mut Vec<u8>) -> Result<(), AllocError>
    ensures { OnOk result (line.new.items ≡ line.old.items ++ (byte_text byte ++ dot_behind left)) }
{
    put_byte(byte, line)?;
    if left == 0 {
        line.push(b'.')?;
    }
    Ok(())
}

/// Puts the labels at the front of bytes: how many bytes they take.
fn put_labels(bytes: &[u8], line: &mut Vec<u8>) -> Result<usize, AllocError>
    ensures text { OnOk result (line.new.items ≡ line.old.items ++ labels_text 0 bytes.now) }
    ensures len { IfOk result (λ len. len ≡ labels_len 0 bytes.now) }
    ensures within { IfOk result (λ len. len ≤ length bytes.now) }
{
    let mut left = 0;
    for i in 0..bytes.len() {
        let byte = bytes[i];
        if left > 0 {
            left -= 1;
            put_in_label(byte, left, line)?;
        } else if byte == 0 {
            return Ok(i + 1);
        } else {
            left = byte;
        }
    }
    Ok(bytes.len())
}

/// Puts the name at the front of bytes: how many bytes it takes.
pub(crate) fn put_name(bytes: &[u8], line: &mut Vec<u8>) -> Result<usize, AllocError>
    ensures text { OnOk result (line.new.items ≡ line.old.items ++ name_text bytes.now) }
    ensures len { IfOk result (λ len. len ≡ labels_len 0 bytes.now) }
    ensures within { IfOk result (λ len. len ≤ length bytes.now) }
{
    match bytes {
        [] => {
            line.push(b'.')?;
            Ok(0)
        }
        [0, ..] => {
            line.push(b'.')?;
            Ok(1)
        }
        _ => put_labels(bytes, line),
    }
}
