//! What a server that holds the zone, or a copy of it, replies.

ghost use Rattle.std.specs.Prelude.{◌≡◌, false, IfOk, IfErr, Ok, Err, None};
ghost use Rattle.hickory_base.specs.zone_store.Lookups.{Flow, answers_of};
ghost use Rattle.hickory_catalog.specs.queries.Authoritative.{AuthoritativeReply, BesideAnswer, additional_section, authoritative_metadata, is_referral, negative_code, negative_contents, positive_contents, refusal_code};
ghost use Rattle.hickory_base.specs.declared.zone_store.lookup.LookupControlFlow.TheVariants.{Continue};
ghost use Rattle.hickory_catalog.specs.queries.DenialRecords.{DenialOfNegative, records_given};
ghost use Rattle.hickory_catalog.specs.replies.Replies.{contents_of};
ghost use Rattle.hickory_catalog.specs.queries.Transcripts.{options_of, wants_memory};

use crate::chains::{is_memory, options_of};
use crate::contents::ReplyContents;
use crate::denying::{answer_denial, nothing_denial};
use hickory_base::errors::{CatalogError, LookupError};
use hickory_base::server::Request;
use hickory_base::zone_store::{
    AuthLookup, LookupControlFlow, LookupOptions, RecordList, ZoneHandler,
};
use hickory_wire::{Items, LowerQuery, Metadata, Record, RecordType, ResponseCode};
use std::alloc::Global;
use std::mem;

/// The metadata of a reply with AA and this response code.
pub(crate) fn authoritative_metadata(request: &Metadata, code: ResponseCode) -> Metadata
    ensures { result ≡ authoritative_metadata request.now code }
{
    let mut metadata = Metadata::response_from_request(request);
    metadata.authoritative = true;
    metadata.response_code = code;
    metadata
}

/// The code with which a handler refuses to answer: Refused or NotAuth.
pub(crate) fn refusal_code(e: &LookupError) -> Option<ResponseCode>
    ensures { result ≡ refusal_code e.now }
{
    match e {
        LookupError::ResponseCode(code) => {
            let number = code.value();
            if number == ResponseCode::REFUSED.value() || number == ResponseCode::NOT_AUTH.value() {
                Some(*code)
            } else {
                None
            }
        }
        _ => None,
    }
}

/// The code of a negative reply.
pub(crate) fn negative_code(e: &LookupError) -> ResponseCode
    ensures { result ≡ negative_code e.now }
{
    if e.is_nx_domain() {
        ResponseCode::NX_DOMAIN
    } else {
        ResponseCode::NO_ERROR
    }
}

/// Whether records are a referral to the servers of a zone below (RFC 1034 section 4.3.2, step 3b).
pub(crate) fn is_referral(query_type: RecordType, records: &[Record]) -> bool
    ensures { result ≡ is_referral query_type records.now }
{
    let asked = query_type.value();
    let is_asked_for = asked == RecordType::NS.value() || asked == RecordType::ANY.value();
    match records {
        [] => false,
        [first, ..] => {
            first.rdata.record_type().value() == RecordType::NS.value() && !is_asked_for
        }
    }
}

/// Takes out the records that were found.
fn take_answers<'z>(alloc: Global, found: &mut AuthLookup<'z>) -> RecordList<'z>
    ensures { result ≡ answers_of found.old }
{
    match found {
        AuthLookup::Empty => RecordList::empty(),
        AuthLookup::Resolved(found) => {
            RecordList::owned(mem::replace(&mut found.answers, Items::new(alloc)))
        }
        AuthLookup::Records { answers, .. } => answers.take(),
        AuthLookup::Whole(reply) => reply.answers.take(),
    }
}

/// Takes out the records of the additional section.
fn take_additionals<'z>(found: &mut AuthLookup<'z>) -> RecordList<'z>
    ensures taken { result ≡ additional_section found.old }
    ensures answers { answers_of found.new ≡ answers_of found.old }
{
    match found {
        AuthLookup::Records { additionals, .. } => additionals.take(),
        _ => RecordList::empty(),
    }
}

/// The records of an outcome, which are taken out, none where it is an error. Want of memory ends the call.
fn records_in<'z>(
    alloc: Global,
    outcome: &mut Result<AuthLookup<'z>, LookupError>,
) -> Result<RecordList<'z>, CatalogError>
    ensures given { IfOk result (λ records. (records ≡ records_given (Continue outcome.old)) ×
        (wants_memory (Continue outcome.old) ≡ false)) }
    ensures refused { IfErr result (λ e. e ≡ CatalogError.Memory) }
{
    match outcome {
        Ok(found) => Ok(take_answers(alloc, found)),
        Err(e) => {
            if is_memory(e) {
                Err(CatalogError::Memory)
            } else {
                Ok(RecordList::empty())
            }
        }
    }
}

/// The records of a handler's answer, which are taken out, none where it is an error or a `Skip`. Want of memory ends
/// the call.
fn records_given<'z>(
    alloc: Global,
    answer: &mut LookupControlFlow<AuthLookup<'z>>,
) -> Result<RecordList<'z>, CatalogError>
    ensures given { IfOk result (λ records. (records ≡ records_given answer.old) × (wants_memory answer.old ≡ false)) }
    ensures refused { IfErr result (λ e. e ≡ CatalogError.Memory) }
{
    match answer {
        LookupControlFlow::Continue(outcome) => records_in(alloc, outcome),
        LookupControlFlow::Break(outcome) => records_in(alloc, outcome),
        LookupControlFlow::Skip => Ok(RecordList::empty()),
    }
}

/// What a reply says with records that were found, which are taken out, and with what the handler gave beside them.
fn positive_contents<'z>(
    alloc: Global,
    request: &Metadata,
    query_type: RecordType,
    found: &mut AuthLookup<'z>,
    beside: RecordList<'z>,
) -> ReplyContents<'z>
    ensures { (given : Flow) → records_given given ≡ beside.entry →
        contents_of result ≡ positive_contents request.now query_type found.old given }
{
    let additionals = take_additionals(found);
    let answers = take_answers(alloc, found);
    let mut contents = ReplyContents {
        metadata: authoritative_metadata(request, ResponseCode::NO_ERROR),
        answers,
        soa: None,
        authorities: RecordList::empty(),
        other_authorities: beside,
        additionals,
    };
    if is_referral(query_type, contents.answers.as_slice()) {
        contents.authorities = contents.answers.take();
    }
    contents
}

/// What else a handler gives for the authority section of a positive reply.
fn beside_answer<'z, H: ZoneHandler>(
    handler: &'z H,
    alloc: Global,
    query: &LowerQuery,
    found: &AuthLookup<'_>,
    options: LookupOptions,
) -> LookupControlFlow<AuthLookup<'z>>
    ensures { BesideAnswer H.ZoneHandler handler.now query.now options found.now result }
{
    if query.query_type().value() == RecordType::SOA.value() {
        handler.lookup(alloc, handler.origin(), RecordType::NS, None, options)
    } else {
        answer_denial(handler, alloc, query, found.answers(), options)
    }
}

/// What else a handler gives for the authority section of a positive reply, as records. Want of memory ends the call.
fn records_beside<'z, H: ZoneHandler>(
    handler: &'z H,
    alloc: Global,
    query: &LowerQuery,
    found: &AuthLookup<'_>,
    options: LookupOptions,
) -> Result<RecordList<'z>, CatalogError>
    ensures given { IfOk result (λ records. (beside : Flow) ×
        BesideAnswer H.ZoneHandler handler.now query.now options found.now beside × (records ≡ records_given beside) ×
        (wants_memory beside ≡ false)) }
    ensures refused { IfErr result (λ e. e ≡ CatalogError.Memory) }
{
    let is_soa = query.query_type().value() == RecordType::SOA.value();
    let is_nothing_denied = handler.nx_proof_kind().is_none();
    // Mostly nothing more is asked, and no room is made for what would be answered.
    if !is_soa && is_nothing_denied {
        return Ok(RecordList::empty());
    }
    let mut beside = beside_answer(handler, alloc, query, found, options);
    let records = records_given(alloc, &mut beside);
    drop(beside);
    records
}

/// What a handler replies with records that were found, which may be taken out.
fn found_contents<'z, H: ZoneHandler>(
    handler: &'z H,
    alloc: Global,
    request: &Request,
    query: &LowerQuery,
    found: &mut AuthLookup<'z>,
) -> Result<ReplyContents<'z>, CatalogError>
    ensures replied { IfOk result (λ contents. AuthoritativeReply H.ZoneHandler handler.now request.now query.now
        (contents_of contents) (Ok found.old)) }
    ensures refused { IfErr result (λ e. e ≡ CatalogError.Memory) }
{
    let beside = records_beside(handler, alloc, query, found, options_of(request))?;
    let query_type = query.query_type();
    Ok(positive_contents(alloc, request.metadata(), query_type, found, beside))
}

/// The denial in the place of records, as records. Want of memory ends the call.
fn denial_records<'z, H: ZoneHandler>(
    handler: &'z H,
    alloc: Global,
    query: &LowerQuery,
    options: LookupOptions,
) -> Result<RecordList<'z>, CatalogError>
    ensures given { IfOk result (λ records. (denial : Flow) ×
        DenialOfNegative H.ZoneHandler handler.now query.now options denial × (records ≡ records_given denial) ×
        (wants_memory denial ≡ false)) }
    ensures refused { IfErr result (λ e. e ≡ CatalogError.Memory) }
{
    // Mostly none is asked for, and no room is made for it.
    if !options.dnssec_ok {
        return Ok(RecordList::empty());
    }
    let mut denial = nothing_denial(handler, alloc, query, options);
    let records = records_given(alloc, &mut denial);
    drop(denial);
    records
}

/// What a reply says where there is nothing, with this denial and this SOA, which is taken out.
fn negative_contents<'z>(
    alloc: Global,
    request: &Metadata,
    e: &LookupError,
    denial: RecordList<'z>,
    soa: &mut LookupControlFlow<AuthLookup<'z>>,
) -> Result<ReplyContents<'z>, CatalogError>
    ensures replied { IfOk result (λ contents. (wants_memory soa.old ≡ false) ×
        ((given : Flow) → records_given given ≡ denial.entry →
        contents_of contents ≡ negative_contents request.now e.now given soa.old)) }
    ensures refused { IfErr result (λ e. e ≡ CatalogError.Memory) }
{
    let mut denial = denial;
    if matches!(soa, LookupControlFlow::Skip) {
        drop(denial.take());
    }
    Ok(ReplyContents {
        metadata: authoritative_metadata(request, negative_code(e)),
        answers: RecordList::empty(),
        soa: None,
        authorities: denial,
        other_authorities: records_given(alloc, soa)?,
        additionals: RecordList::empty(),
    })
}

/// What a handler replies where there is nothing.
fn nothing_contents<'z, H: ZoneHandler>(
    handler: &'z H,
    alloc: Global,
    request: &Request,
    query: &LowerQuery,
    e: &LookupError,
) -> Result<ReplyContents<'z>, CatalogError>
    requires { refusal_code e.now ≡ None }
    ensures replied { IfOk result (λ contents. AuthoritativeReply H.ZoneHandler handler.now request.now query.now
        (contents_of contents) (Err e.now)) }
    ensures refused { IfErr result (λ e. e ≡ CatalogError.Memory) }
{
    let options = options_of(request);
    let denial = denial_records(handler, alloc, query, options)?;
    let mut soa = handler.lookup(alloc, handler.origin(), RecordType::SOA, None, options);
    let contents = negative_contents(alloc, request.metadata(), e, denial, &mut soa);
    drop(soa);
    contents
}

/// What a handler that holds the zone replies to what the chain answered in the end, whose records may be taken out.
pub(crate) fn authoritative_contents<'z, H: ZoneHandler>(
    handler: &'z H,
    alloc: Global,
    request: &Request,
    query: &LowerQuery,
    outcome: &mut Result<AuthLookup<'z>, LookupError>,
) -> Result<ReplyContents<'z>, CatalogError>
    ensures replied { IfOk result (λ contents. AuthoritativeReply H.ZoneHandler handler.now request.now query.now
        (contents_of contents) outcome.old) }
    ensures refused { IfErr result (λ e. e ≡ CatalogError.Memory) }
{
    match outcome {
        Ok(found) => found_contents(handler, alloc, request, query, found),
        Err(e) => match refusal_code(e) {
            Some(code) => {
                let metadata = authoritative_metadata(request.metadata(), code);
                Ok(ReplyContents::bare(metadata))
            }
            None => nothing_contents(handler, alloc, request, query, e),
        },
    }
}
