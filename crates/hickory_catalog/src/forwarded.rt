//! What a server that asked elsewhere replies.

ghost use Rattle.std.specs.Prelude.{◌≡◌, false, IfOk, filter, option_to_list};
ghost use Rattle.std.specs.List.{list_all, list_any};
ghost use Rattle.hickory_base.specs.zone_store.Lookups.{asks_for_dnssec};
ghost use Rattle.hickory_catalog.specs.queries.Forwarded.{code_alone, findings_contents, findings_of, forwarded_code, forwarded_contents, forwarded_metadata, has_name, is_authentic, is_bogus, is_bogus_proof, is_dnssec_bogus, is_dnssec_type, is_named, is_no_soa, is_passed_on, is_secure, is_secure_proof, nothing_found, passed_on, records_found, seen_findings, validated, without_bogus};
ghost use Rattle.hickory_catalog.specs.replies.Replies.{contents_of};

use crate::contents::ReplyContents;
use hickory_base::errors::{DnsError, LookupError};
use hickory_base::message_request::MessageRequest;
use hickory_base::zone_store::{AuthLookup, LookupOptions, RecordList};
use hickory_wire::{
    Boxed, Items, LowerQuery, Metadata, Name, Proof, Record, RecordType, ResponseCode,
};
use std::alloc::{AllocError, Global};

/// What there is to pass on.
#[derive(Drop)]
pub(crate) struct Findings<'z> {
    /// The response code.
    pub code: ResponseCode,
    /// The answers.
    pub answers: RecordList<'z>,
    /// The authorities, without SOA records where nothing was found.
    pub authorities: RecordList<'z>,
    /// The SOA of a negative answer (RFC 2308 sections 2.1 and 2.2).
    pub soa: Option<Boxed<Record>>,
    /// The additionals.
    pub additionals: RecordList<'z>,
    /// Whether the proof is known to be wrong, whatever the records say.
    pub is_bogus: bool,
}

/// A response code alone.
fn code_alone<'z>(code: ResponseCode, is_bogus: bool) -> Findings<'z>
    ensures { seen_findings result ≡ code_alone code is_bogus }
{
    Findings {
        code,
        answers: RecordList::empty(),
        authorities: RecordList::empty(),
        soa: None,
        additionals: RecordList::empty(),
        is_bogus,
    }
}

/// Answers, without a response code and anything else.
fn answers_alone<'z>(answers: RecordList<'z>) -> Findings<'z>
    ensures { seen_findings result ≡ record (code_alone 0 false) { answers = answers.entry } }
{
    let mut findings = code_alone(ResponseCode::NO_ERROR, false);
    findings.answers = answers;
    findings
}

/// What there is to pass on of records that were found.
fn records_found<'z>(found: AuthLookup<'z>) -> Findings<'z>
    ensures { seen_findings result ≡ records_found found.entry }
{
    match found {
        AuthLookup::Empty => code_alone(ResponseCode::NO_ERROR, false),
        AuthLookup::Resolved(found) => Findings {
            code: ResponseCode::NO_ERROR,
            answers: RecordList::owned(found.answers),
            authorities: RecordList::owned(found.authorities),
            soa: None,
            additionals: RecordList::owned(found.additionals),
            is_bogus: false,
        },
        AuthLookup::Records { answers, .. } => answers_alone(answers),
        AuthLookup::Whole(reply) => answers_alone(reply.answers),
    }
}

/// Whether a record is another than the SOA of a zone.
fn is_no_soa(given: &Record) -> bool
    ensures { result ≡ is_no_soa given.now }
{
    given.rdata.record_type().value() != RecordType::SOA.value()
}

/// The records without the SOA records.
fn without_soa(records: Items<Record>) -> Items<Record>
    ensures { result ≡ filter is_no_soa records }
{
    let mut records = records.into_vec();
    records.retain(|record| is_no_soa(record));
    Items::from_vec(records)
}

/// Whether some record has the name, in any letter case.
fn has_name(name: &Name, records: &[Record]) -> bool
    ensures { result ≡ has_name name.now records.now }
{
    records.iter().any(|record| record.name == *name)
}

/// The code of a negative answer.
fn forwarded_code(name: &Name, e: &LookupError) -> ResponseCode
    ensures { result ≡ forwarded_code name.now e.now }
{
    let is_in_use = match e.authorities() {
        None => false,
        Some(records) => has_name(name, records),
    };
    if !is_in_use && e.is_nx_domain() {
        ResponseCode::NX_DOMAIN
    } else {
        ResponseCode::NO_ERROR
    }
}

/// What there is to pass on of a negative answer.
fn nothing_found<'z>(name: &Name, e: LookupError) -> Findings<'z>
    ensures { seen_findings result ≡ nothing_found name.now e }
{
    let mut findings = code_alone(forwarded_code(name, &e), false);
    match e {
        LookupError::Net(
            DnsError::NoRecords {
                authorities,
                soa,
                ..
            },
        ) => {
            findings.authorities = RecordList::owned(without_soa(authorities));
            findings.soa = soa;
        }
        _ => {}
    }
    findings
}

/// Whether the failure is a wrong DNSSEC proof.
fn is_dnssec_bogus(e: &LookupError) -> bool
    ensures { result ≡ is_dnssec_bogus e.now }
{
    matches!(e, LookupError::Net(DnsError::DnssecBogus))
}

/// What there is to pass on for an answer.
fn findings_of<'z>(name: &Name, outcome: Result<AuthLookup<'z>, LookupError>) -> Findings<'z>
    ensures { seen_findings result ≡ findings_of name.now outcome.entry }
{
    match outcome {
        Ok(found) => records_found(found),
        Err(e) => {
            if e.is_no_records_found() || e.is_nx_domain() {
                nothing_found(name, e)
            } else {
                code_alone(ResponseCode::SERV_FAIL, is_dnssec_bogus(&e))
            }
        }
    }
}

/// Whether a proof is wrong.
fn is_bogus_proof(proof: Proof) -> bool
    ensures { result ≡ is_bogus_proof proof }
{
    matches!(proof, Proof::Bogus)
}

/// Whether something is proved.
fn is_secure_proof(proof: Proof) -> bool
    ensures { result ≡ is_secure_proof proof }
{
    matches!(proof, Proof::Secure)
}

/// Whether the proof of some record is wrong.
fn any_is_bogus(records: &[Record]) -> bool
    ensures { result ≡ list_any (λ r. is_bogus_proof r.proof) records.now }
{
    records.iter().any(|record| is_bogus_proof(record.proof))
}

/// Whether all records are proved.
fn all_are_secure(records: &[Record]) -> bool
    ensures { result ≡ list_all (λ r. is_secure_proof r.proof) records.now }
{
    records.iter().all(|record| is_secure_proof(record.proof))
}

/// Whether what there is to pass on is known to be wrong.
fn is_bogus(found: &Findings<'_>) -> bool
    ensures { result ≡ is_bogus (seen_findings found.now) }
{
    found.is_bogus
        || match &found.soa {
            None => any_is_bogus(found.answers.as_slice()),
            Some(soa) => {
                is_bogus_proof(soa.get().proof) || any_is_bogus(found.authorities.as_slice())
            }
        }
}

/// Whether there are records, and all are proved.
fn is_secure(found: &Findings<'_>) -> bool
    ensures { result ≡ is_secure (seen_findings found.now) }
{
    if is_bogus(found) {
        return false;
    }
    match &found.soa {
        None => {
            let answers = found.answers.as_slice();
            !answers.is_empty() && all_are_secure(answers)
        }
        Some(soa) => {
            is_secure_proof(soa.get().proof) && all_are_secure(found.authorities.as_slice())
        }
    }
}

/// What is passed on of a bogus answer.
fn without_bogus<'z>(found: Findings<'z>) -> Findings<'z>
    ensures { seen_findings result ≡ without_bogus (seen_findings found.entry) }
{
    let mut found = found;
    found.code = ResponseCode::SERV_FAIL;
    if found.soa.is_none() {
        found.answers = RecordList::empty();
    } else {
        found.soa = None;
    }
    found
}

/// What is passed on, for a handler that validates or not.
fn validated<'z>(validates: bool, request: &Metadata, found: Findings<'z>) -> Findings<'z>
    ensures { seen_findings result ≡ validated validates request.now (seen_findings found.entry) }
{
    if validates && is_bogus(&found) && !request.checking_disabled {
        without_bogus(found)
    } else {
        found
    }
}

/// Whether the request asks for DNSSEC records.
fn asks_for_dnssec(request: &MessageRequest) -> bool
    ensures { result ≡ asks_for_dnssec request.now.edns }
{
    LookupOptions::from_edns(request.edns.as_ref()).dnssec_ok
}

/// Whether the reply has AD.
fn is_authentic(validates: bool, request: &MessageRequest, found: &Findings<'_>) -> bool
    ensures { result ≡ is_authentic validates request.now (seen_findings found.now) }
{
    validates && is_secure(found) && (request.metadata.authentic_data || asks_for_dnssec(request))
}

/// Whether a type is one of DNSSEC.
fn is_dnssec_type(record_type: RecordType) -> bool
    ensures { result ≡ is_dnssec_type record_type }
{
    let types = [
        RecordType::SIG.value(),
        RecordType::KEY.value(),
        RecordType::DS.value(),
        RecordType::RRSIG.value(),
        RecordType::NSEC.value(),
        RecordType::DNSKEY.value(),
        RecordType::NSEC3.value(),
        RecordType::NSEC3PARAM.value(),
        RecordType::CDS.value(),
        RecordType::CDNSKEY.value(),
    ];
    types.contains(&record_type.value())
}

/// Whether a record is passed on.
fn is_passed_on(dnssec_ok: bool, query_type: RecordType, given: &Record) -> bool
    ensures { result ≡ is_passed_on dnssec_ok query_type given.now }
{
    let record_type = given.rdata.record_type();
    dnssec_ok || !is_dnssec_type(record_type) || record_type.value() == query_type.value()
}

/// Whether all records are passed on.
fn all_are_passed_on(dnssec_ok: bool, query_type: RecordType, records: &[Record]) -> bool
    ensures { result ≡ list_all (is_passed_on dnssec_ok query_type) records.now }
{
    records
        .iter()
        .all(|record| is_passed_on(dnssec_ok, query_type, record))
}

/// Those of the records that are passed on.
fn filtered(dnssec_ok: bool, query_type: RecordType, records: Items<Record>) -> Items<Record>
    ensures { result ≡ filter (is_passed_on dnssec_ok query_type) records }
{
    let mut records = records.into_vec();
    records.retain(|record| is_passed_on(dnssec_ok, query_type, record));
    Items::from_vec(records)
}

/// The records that are passed on. It takes memory only where some are left out of a list that is lent.
fn passed_on<'z>(
    alloc: Global,
    request: &MessageRequest,
    query: &LowerQuery,
    records: RecordList<'z>,
) -> Result<RecordList<'z>, AllocError>
    ensures { IfOk result (λ kept. kept ≡ passed_on request.now query.now records.entry) }
{
    let dnssec_ok = asks_for_dnssec(request);
    let query_type = query.query_type();
    if all_are_passed_on(dnssec_ok, query_type, records.as_slice()) {
        return Ok(records);
    }
    let records = records.into_items(alloc)?;
    Ok(RecordList::owned(filtered(dnssec_ok, query_type, records)))
}

/// The SOA that is passed on.
fn soa_passed_on(
    request: &MessageRequest,
    query: &LowerQuery,
    soa: Option<Boxed<Record>>,
) -> Option<Boxed<Record>>
    ensures { option_to_list result ≡ passed_on request.now query.now (option_to_list soa) }
{
    match soa {
        None => None,
        Some(soa) => {
            if is_passed_on(asks_for_dnssec(request), query.query_type(), soa.get()) {
                Some(soa)
            } else {
                None
            }
        }
    }
}

/// The metadata of a reply with RA.
fn forwarded_metadata(request: &Metadata, authentic: bool, code: ResponseCode) -> Metadata
    ensures { result ≡ forwarded_metadata request.now authentic code }
{
    let mut metadata = Metadata::response_from_request(request);
    metadata.recursion_available = true;
    metadata.authentic_data = authentic;
    metadata.response_code = code;
    metadata
}

/// What the reply says with what is passed on.
fn findings_contents<'z>(
    alloc: Global,
    request: &MessageRequest,
    query: &LowerQuery,
    authentic: bool,
    found: Findings<'z>,
) -> Result<ReplyContents<'z>, AllocError>
    ensures { IfOk result (λ contents. contents_of contents ≡ findings_contents request.now query.now authentic
        (seen_findings found.entry)) }
{
    Ok(ReplyContents {
        metadata: forwarded_metadata(&request.metadata, authentic, found.code),
        answers: passed_on(alloc, request, query, found.answers)?,
        soa: soa_passed_on(request, query, found.soa),
        authorities: RecordList::empty(),
        other_authorities: passed_on(alloc, request, query, found.authorities)?,
        additionals: passed_on(alloc, request, query, found.additionals)?,
    })
}

/// What a handler that asks elsewhere replies to what the chain answered in the end.
pub(crate) fn forwarded_contents<'z>(
    alloc: Global,
    request: &MessageRequest,
    query: &LowerQuery,
    validates: bool,
    outcome: Result<AuthLookup<'z>, LookupError>,
) -> Result<ReplyContents<'z>, AllocError>
    ensures { IfOk result (λ contents. contents_of contents ≡ forwarded_contents request.now query.now validates
        outcome.entry) }
{
    if !request.metadata.recursion_desired {
        drop(outcome);
        let refused = forwarded_metadata(&request.metadata, false, ResponseCode::REFUSED);
        return Ok(ReplyContents::bare(refused));
    }
    let found = findings_of(&query.original().name, outcome);
    let authentic = is_authentic(validates, request, &found);
    let found = validated(validates, &request.metadata, found);
    findings_contents(alloc, request, query, authentic, found)
}
