//! Gateways with the keys to them (RFC 4025).

ghost use Rattle.std.specs.Prelude.{◌≡◌, ◌≢◌, None, Some, IfErr, IfNone, IfSome, OnOk};
ghost use Rattle.std.specs.Option.{option_copied};
ghost use Rattle.text_words.specs.declared.error.TextError.TheVariants.{Memory};
ghost use Rattle.text_words.specs.Spelling.{Puts};
ghost use Rattle.record_text.specs.RecordText.{HasNone, IsGateway, gateway_fields};

use crate::data::field::Field;
use crate::data::fields::put_fields;
use crate::data::rest::put_base64;
use hickory_wire::Name;
use std::alloc::Global;
use text_words::{TextError, TextFault, Word, fault_at};

/// The fields where there is no gateway.
static NO_GATEWAY: [Field; 3] = [Field::Number8, Field::Number8, Field::NoGateway];

/// The fields of a gateway at an IPv4 address.
static AT_IPV4: [Field; 3] = [Field::Number8, Field::Number8, Field::Ipv4];

/// The fields of a gateway at an IPv6 address.
static AT_IPV6: [Field; 3] = [Field::Number8, Field::Number8, Field::Ipv6];

/// The fields of a gateway by its name.
static BY_NAME: [Field; 3] = [Field::Number8, Field::Number8, Field::Name];

/// The fields by the type of a gateway (RFC 4025 section 2.3).
fn gateway_fields(kind: u32) -> Option<&'static [Field]>
    ensures told { IfSome result (λ fields. gateway_fields kind ≡ Some fields.now) }
    ensures none { IfNone result (gateway_fields kind ≡ None) }
{
    match kind {
        0 => Some(&NO_GATEWAY),
        1 => Some(&AT_IPV4),
        2 => Some(&AT_IPV6),
        3 => Some(&BY_NAME),
        _ => None,
    }
}

/// Puts a gateway and the key to it behind other bytes. `end` is the place where a word is missing.
pub(crate) fn put_gateway(
    alloc: Global,
    words: &[Word<'_>],
    end: usize,
    origin: Option<&Name>,
    data: &mut Vec<u8>,
) -> Result<(), TextError>
    ensures put { OnOk result (Puts (IsGateway (option_copied origin.entry) words.now) «data».old.items
        «data».new.items) }
    ensures refused { IfErr result (λ e. e ≢ Memory → HasNone (IsGateway (option_copied origin.entry) words.now)) }
{
    let Some(first) = words.first() else {
        return Err(fault_at(end, TextFault::MissingField));
    };
    let Some(fields) = gateway_fields(first.number()?) else {
        return Err(first.fault(TextFault::NumberOutOfRange));
    };
    let key = put_fields(alloc, fields, words, end, origin, data)?;
    put_base64(alloc, key, end, data)
}
