//! The options that the data of an OPT record are made of (RFC 6891 section 6.1.2).

ghost use Rattle.std.specs.Prelude.{◌≡◌, ◌≤◌, IfOk, IfSome, IfNone, true, false, length, take, drop};
ghost use Rattle.wire_messages.specs.serialize.reading.OptionReading.{option_code, option_len, ends_early};
ghost use Rattle.wire_messages.specs.serialize.reading.RecordReading.{options_of};

use bytes::Buf;
use std::alloc::{AllocError, Global};
use wire_messages::op::edns::EdnsOption;
use wire_names::values::items::Items;
use wire_names::values::octets::Octets;

/// An option, and the bytes behind it.
#[derive(Clone, Copy)]
struct FirstOption<'a> {
    code: u16,
    bytes: &'a [u8],
    behind: &'a [u8],
}

fn first_option(bytes: &[u8]) -> Option<FirstOption<'_>>
    ensures none { IfNone result (ends_early bytes.now ≡ true) }
    ensures whole { IfSome result (λ option. ends_early bytes.now ≡ false) }
    ensures code { IfSome result (λ option. option.code ≡ option_code bytes.now) }
    ensures data { IfSome result (λ option. option.bytes.now ≡ take (option_len bytes.now) (drop 4 bytes.now)) }
    ensures behind { IfSome result (λ option. option.behind.now ≡ drop (option_len bytes.now) (drop 4 bytes.now)) }
{
    let mut rest = bytes;
    let code = rest.try_get_u16().ok()?;
    let len = usize::from(rest.try_get_u16().ok()?);
    if rest.len() < len {
        return None;
    }
    Some(FirstOption {
        code,
        bytes: &rest[..len],
        behind: &rest[len..],
    })
}

/// The options that bytes are made of, or none where the bytes are not made of options.
#[inline(always)]
pub(crate) fn options_of(alloc: Global, bytes: &[u8]) -> Result<Items<EdnsOption>, AllocError>
    ensures { IfOk result (λ options. options ≡ options_of bytes.now) }
{
    let mut options = Items::new(alloc);
    let mut rest = bytes;
    'options: while !rest.is_empty() {
        let Some(option) = first_option(rest) else {
            return Ok(Items::new(alloc));
        };
        options.push(EdnsOption {
            code: option.code,
            bytes: Octets::from_slice(alloc, option.bytes)?,
        })?;
        rest = option.behind;
    }
    Ok(options)
}
