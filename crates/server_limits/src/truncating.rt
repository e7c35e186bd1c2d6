//! Replies without their records, which say that the whole is to be had over TCP.

ghost use Rattle.std.specs.Prelude.{◌≡◌, ◌≤◌, IfOk, IfSome, length, take};
ghost use Rattle.server_limits.specs.Truncating.{IsQuestion, IsTruncated, with_truncation};

use std::alloc::{AllocError, Global};

/// How many bytes of these a question takes that stands at their front (RFC 1035 section 4.1.2), with a name that is
/// not compressed.
fn question_len(bytes: &[u8]) -> Option<usize>
    ensures question { IfSome result (λ len. IsQuestion (take len bytes.now)) }
    ensures within { IfSome result (λ len. len ≤ length bytes.now) }
{
    let mut at = 0;
    // Each turn takes two bytes at least.
    for _ in 0..bytes.len() {
        if at >= bytes.len() {
            return None;
        }
        let label = bytes[at] as usize;
        if label == 0 {
            return if bytes.len() - at >= 5 {
                Some(at + 5)
            } else {
                None
            };
        }
        if label > 63 {
            return None;
        }
        at += 1 + label;
    }
    None
}

/// The third byte of a header with TC.
fn with_truncation(flags: u8) -> u8
    ensures { result ≡ with_truncation flags }
{
    if flags / 2 % 2 == 1 { flags } else { flags + 2 }
}

/// The header and the first question of a reply alone, with TC. `None` where it begins with no header and question. An
/// error says that memory was refused.
pub fn truncated(alloc: Global, reply: &[u8]) -> Result<Option<Vec<u8>>, AllocError>
    ensures { IfOk result (λ bytes. IfSome bytes (λ it. IsTruncated reply.now it.items)) }
{
    let [a, b, flags, code, _, _, _, _, _, _, _, _, body @ ..] = reply else {
        return Ok(None);
    };
    let Some(len) = question_len(body) else {
        return Ok(None);
    };
    let header = [
        *a,
        *b,
        with_truncation(*flags),
        *code,
        0,
        1,
        0,
        0,
        0,
        0,
        0,
        0,
    ];
    let mut bytes = Vec::new(alloc);
    bytes.extend_from_slice(&header)?;
    bytes.extend_from_slice(&body[..len])?;
    Ok(Some(bytes))
}
