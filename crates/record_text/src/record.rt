//! Records in text.

ghost use Rattle.std.specs.Prelude.{◌≡◌, ◌≤◌, true, IfOk};
ghost use Rattle.wire_messages.specs.serialize.writing.RecordSize.{data_len};
ghost use Rattle.wire_messages.specs.declared.rr.record.Proof.TheVariants.{Indeterminate};

use crate::data::data_of;
use crate::data::table::type_of;
use hickory_wire::{DNSClass, Proof, Record, RecordType};
use std::alloc::Global;
use text_words::{TextError, TextFault, Word, Words, next_name, ttl_of};

/// The class of a field.
pub fn class_of(word: &Word<'_>) -> Result<DNSClass, TextError> {
    let unknown = word.fault(TextFault::UnknownClass);
    let text = word.plain_text().ok_or(unknown)?;
    text.parse::<DNSClass>().map_err(|_| unknown)
}

/// Reads a record from a line of a zone's text (RFC 1035 section 5.1): owner name, TTL in seconds, class, type and
/// data, with blanks between, as `www.example.com. 3600 IN A 192.0.2.1`. A comment may stand behind it, from `;` on.
///
/// All fields have to be there, and names are fully qualified. What data are made of is told at
/// [`read_data`](crate::read_data). Nothing is known of the record's proof.
pub fn read_record(alloc: Global, line: &str) -> Result<Record, TextError>
    ensures owner { IfOk result (λ r. r.name.is_fqdn ≡ true) }
    ensures unproved { IfOk result (λ r. r.proof ≡ Indeterminate) }
    ensures fits { IfOk result (λ r. data_len r.rdata ≤ 65535) }
{
    let mut words = Words::new(line);
    let name = next_name(alloc, &mut words, None)?;
    let ttl = ttl_of(&words.field()?)?;
    let dns_class = class_of(&words.field()?)?;
    let record_type = type_of(&words.field()?)?;
    let rdata = data_of(alloc, record_type, &mut words)?;
    Ok(Record {
        name,
        dns_class,
        ttl,
        rdata,
        proof: Proof::Indeterminate,
    })
}
