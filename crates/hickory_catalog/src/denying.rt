//! Denials beside the records of a zone, and in their place.

ghost use Rattle.std.specs.Prelude.{◌≡◌};
ghost use Rattle.std.specs.Option.{option_copied};
ghost use Rattle.hickory_catalog.specs.queries.DenialRecords.{DenialBesideAnswer, DenialGiven, DenialOfNegative, is_expanded, is_wildcard_match, needs_denial, signed_labels};

use hickory_base::zone_store::{
    AuthLookup, LookupControlFlow, LookupOptions, Nsec3QueryInfo, NxProofKind, ZoneHandler,
};
use hickory_wire::{LowerQuery, RData, Record, RecordType};
use std::alloc::Global;

/// The labels field of a signature record: the fourth octet of the data of an RRSIG (RFC 4034 section 3.1.3).
fn signed_labels(rdata: &RData) -> Option<u8>
    ensures { result ≡ signed_labels rdata.now }
{
    match rdata {
        RData::Unknown { code, bytes } if code.value() == RecordType::RRSIG.value() => {
            bytes.as_slice().get(3).copied()
        }
        _ => None,
    }
}

/// Whether a record is a signature of records that come of a wildcard.
fn is_expanded(given: &Record) -> bool
    ensures { result ≡ is_expanded given.now }
{
    match signed_labels(&given.rdata) {
        None => false,
        Some(labels) => usize::from(labels) < given.name.num_labels(),
    }
}

/// Whether records come of a wildcard.
fn is_wildcard_match(records: &[Record]) -> bool
    ensures { result ≡ is_wildcard_match records.now }
{
    records.iter().any(|record| is_expanded(record))
}

/// Whether a denial is wanted beside records that were found.
fn needs_denial(kind: Option<&NxProofKind>, from_wildcard: bool) -> bool
    ensures { result ≡ needs_denial (option_copied kind.entry) from_wildcard }
{
    match kind {
        None => false,
        Some(NxProofKind::Nsec) => from_wildcard,
        Some(NxProofKind::Nsec3 { .. }) => true,
    }
}

/// What a handler gives as a denial of a query, by what it can deny with.
fn denial<'z, H: ZoneHandler>(
    handler: &'z H,
    alloc: Global,
    query: &LowerQuery,
    from_wildcard: bool,
    options: LookupOptions,
) -> LookupControlFlow<AuthLookup<'z>>
    ensures { DenialGiven H.ZoneHandler handler.now
        (record { query = query.now; from_wildcard = from_wildcard; options = options })
        (H.nx_proof_kind_of handler.now) result }
{
    match handler.nx_proof_kind() {
        None => LookupControlFlow::Skip,
        Some(NxProofKind::Nsec) => handler.nsec_records(alloc, query.name(), options),
        Some(
            NxProofKind::Nsec3 {
                algorithm,
                salt,
                iterations,
                ..
            },
        ) => {
            let info = Nsec3QueryInfo {
                qname: query.name(),
                qtype: query.query_type(),
                has_wildcard_match: from_wildcard,
                algorithm: *algorithm,
                salt: salt.as_slice(),
                iterations: *iterations,
            };
            handler.nsec3_records(alloc, info, options)
        }
    }
}

/// The denial beside records that were found.
pub(crate) fn answer_denial<'z, H: ZoneHandler>(
    handler: &'z H,
    alloc: Global,
    query: &LowerQuery,
    records: &[Record],
    options: LookupOptions,
) -> LookupControlFlow<AuthLookup<'z>>
    ensures { DenialBesideAnswer H.ZoneHandler handler.now query.now (is_wildcard_match records.now) options result }
{
    let kind = handler.nx_proof_kind();
    if kind.is_none() {
        return LookupControlFlow::Skip;
    }
    let from_wildcard = is_wildcard_match(records);
    if needs_denial(kind, from_wildcard) {
        denial(handler, alloc, query, from_wildcard, options)
    } else {
        LookupControlFlow::Skip
    }
}

/// The denial in the place of records.
pub(crate) fn nothing_denial<'z, H: ZoneHandler>(
    handler: &'z H,
    alloc: Global,
    query: &LowerQuery,
    options: LookupOptions,
) -> LookupControlFlow<AuthLookup<'z>>
    ensures { DenialOfNegative H.ZoneHandler handler.now query.now options result }
{
    if options.dnssec_ok {
        denial(handler, alloc, query, false, options)
    } else {
        LookupControlFlow::Skip
    }
}
