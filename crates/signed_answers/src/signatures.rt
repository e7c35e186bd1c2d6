//! The signatures of RRsets (RFC 4034 section 3, RFC 4035 section 3.1.1).

ghost use Rattle.std.specs.Prelude.{◌≡◌, ◌++◌, IfOk, OnOk, filter, map};
ghost use Rattle.std.specs.Option.{option_copied};
ghost use Rattle.hickory_base.specs.zone_store.ZoneSets.{sets_of};
ghost use Rattle.signed_answers.specs.Signatures.{covers, is_type, octets_of, signatures_of};

use hickory_base::zone_store::RecordSet;
use hickory_wire::{LowerName, RData, Record, RecordType, RrKey};
use std::alloc::{AllocError, Global};
use std::collections::BTreeMap;
use std::rc::Rc;
use zone_answers::find::set_under;
use zone_denials::rrsig;

/// The octets of data of type RRSIG.
fn octets_of(rdata: &RData) -> Option<&[u8]>
    ensures { option_copied result ≡ octets_of rdata.now }
{
    match rdata {
        RData::Unknown { code, bytes } if *code == RecordType::RRSIG => Some(bytes.as_slice()),
        _ => None,
    }
}

/// Whether this is the type.
fn is_type(found: Option<RecordType>, record_type: RecordType) -> bool
    ensures { result ≡ is_type record_type found }
{
    match found {
        Some(other) => other == record_type,
        None => false,
    }
}

/// Whether a record is a signature of RRsets of this type.
fn covers(covered: RecordType, signature: &Record) -> bool
    ensures { result ≡ covers covered signature.now }
{
    match octets_of(&signature.rdata) {
        Some(octets) => is_type(rrsig::covered(octets), covered),
        None => false,
    }
}

/// Puts the signatures of RRsets of this type last.
fn append_signatures<'z>(
    all: &mut Vec<&'z Record>,
    covered: RecordType,
    records: &'z [Record],
) -> Result<(), AllocError>
    ensures { OnOk result (map (λ r. r.now) all.new.items ≡
        map (λ r. r.now) all.old.items ++ filter (covers covered) records.now) }
{
    for record in records {
        if covers(covered, record) {
            all.push(record)?;
        }
    }
    Ok(())
}

/// The signatures of the RRset of this type at an owner name, in their order. The signatures of an RRset that a
/// wildcard gives are those at the name of the wildcard: a reply shows them at the name that was asked for.
///
/// # Errors
///
/// The only error is that an allocation fails.
pub fn signatures<'z>(
    alloc: Global,
    sets: &'z BTreeMap<RrKey, Rc<RecordSet>>,
    owner: &LowerName,
    covered: RecordType,
) -> Result<Vec<&'z Record>, AllocError>
    ensures { IfOk result (λ all. map (λ r. r.now) all.items ≡ signatures_of (sets_of sets.now) owner.now covered) }
{
    let key = RrKey::new(owner.clone()?, RecordType::RRSIG);
    let mut all = Vec::new(alloc);
    if let Some(records) = set_under(sets, &key) {
        append_signatures(&mut all, covered, records)?;
    }
    Ok(all)
}
