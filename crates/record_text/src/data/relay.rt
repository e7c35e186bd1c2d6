//! Relays of multicast traffic (RFC 8777).

ghost use Rattle.std.specs.Prelude.{◌≡◌, ◌≢◌, ◌≤◌, None, Some, IfErr, IfNone, IfSome, OnOk};
ghost use Rattle.std.specs.Option.{option_copied};
ghost use Rattle.text_words.specs.declared.error.TextError.TheVariants.{Memory};
ghost use Rattle.text_words.specs.Spelling.{Puts};
ghost use Rattle.record_text.specs.declared.data.field.Rest.TheVariants as rest;
ghost use Rattle.record_text.specs.RecordText.{HasNone, IsRelay, IsRest, relay_field};

use crate::data::field::Field;
use crate::data::fields::put_field;
use hickory_wire::Name;
use std::alloc::Global;
use text_words::{TextError, TextFault, Word, fault_at};

/// The field of a relay by its type, and the type as a byte (RFC 8777 section 4.2.3).
fn relay_field(kind: u32) -> Option<(u8, Field)>
    ensures told { IfSome result (λ found. relay_field kind ≡ Some found.1) }
    ensures same { IfSome result (λ found. found.0 ≡ kind) }
    ensures small { IfSome result (λ found. found.0 ≤ 3) }
    ensures none { IfNone result (relay_field kind ≡ None) }
{
    match kind {
        0 => Some((0, Field::NoGateway)),
        1 => Some((1, Field::Ipv4)),
        2 => Some((2, Field::Ipv6)),
        3 => Some((3, Field::Name)),
        _ => None,
    }
}

/// Puts what the words of a relay stand for behind other bytes.
fn put_parts(
    alloc: Global,
    first: &Word<'_>,
    second: &Word<'_>,
    third: &Word<'_>,
    origin: Option<&Name>,
    data: &mut Vec<u8>,
) -> Result<(), TextError>
    ensures put { OnOk result (Puts (IsRelay (option_copied origin.entry) first.now second.now third.now)
        «data».old.items «data».new.items) }
    ensures refused { IfErr result
        (λ e. e ≢ Memory → HasNone (IsRelay (option_copied origin.entry) first.now second.now third.now)) }
{
    let discovery = first.number()?;
    if discovery > 1 {
        return Err(first.fault(TextFault::NumberOutOfRange));
    }
    let Some((kind, field)) = relay_field(second.number()?) else {
        return Err(second.fault(TextFault::NumberOutOfRange));
    };
    data.push(128 * discovery as u8 + kind)?;
    put_field(alloc, field, third, origin, data)
}

/// Puts whether a relay may be asked at once, and the relay, behind other bytes. `end` is the place where a word is
/// missing.
pub(crate) fn put_relay(
    alloc: Global,
    words: &[Word<'_>],
    end: usize,
    origin: Option<&Name>,
    data: &mut Vec<u8>,
) -> Result<(), TextError>
    ensures put { OnOk result (Puts (IsRest (option_copied origin.entry) rest.Relay words.now) «data».old.items
        «data».new.items) }
    ensures refused { IfErr result
        (λ e. e ≢ Memory → HasNone (IsRest (option_copied origin.entry) rest.Relay words.now)) }
{
    match words {
        [first, second, third] => put_parts(alloc, first, second, third, origin, data),
        [_, _, _, more, ..] => Err(more.fault(TextFault::TooMuchText)),
        _ => Err(fault_at(end, TextFault::MissingField)),
    }
}
