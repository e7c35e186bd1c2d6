//! Transfers of whole zones (RFC 5936).

ghost use Rattle.std.specs.Prelude.{◌≡◌, true, false, None, Ok, IfSome, IfNone};
ghost use Rattle.hickory_catalog.specs.replies.Replies.{contents_of};
ghost use Rattle.hickory_catalog.specs.transfers.Transfers.{TransferAsked, is_split, transfer_contents, transfer_fault};

use crate::authoritative::{authoritative_metadata, negative_code, refusal_code};
use crate::chains::options_of;
use crate::contents::ReplyContents;
use hickory_base::errors::LookupError;
use hickory_base::server::Request;
use hickory_base::zone_store::{RecordList, ZoneHandler, ZoneTransfer};
use hickory_wire::{Metadata, Protocol, Record, ResponseCode, TSigResponseContext};
use std::alloc::Global;

/// Asks the handlers of a chain for a transfer of the zone, from left to right. After `None` the next one is asked.
pub(crate) fn ask_for_transfer<H: ZoneHandler>(
    chain: &[H],
    alloc: Global,
    request: &Request,
    now: u64,
) -> Option<
    (
        Result<ZoneTransfer, LookupError>,
        Option<TSigResponseContext>,
    ),
>
    ensures { TransferAsked H.ZoneHandler request.now now chain.now result }
{
    let options = options_of(request);
    for place in 0..chain.len() {
        let answer = chain[place].zone_transfer(alloc, request, options, now);
        if answer.is_some() {
            return answer;
        }
    }
    None
}

/// The records of a transfer that is sent in as many replies as it takes, if it is.
pub(crate) fn split_records<'t>(
    transport: Protocol,
    outcome: &'t Result<ZoneTransfer, LookupError>,
    context: &Option<TSigResponseContext>,
) -> Option<&'t [Record]>
    ensures split { IfSome result (λ records. (context.now ≡ None) ×
        (outcome.now ≡ Ok (record { records = records.now })) × (is_split transport outcome.now context.now ≡ true)) }
    ensures whole { IfNone result (is_split transport outcome.now context.now ≡ false) }
{
    match outcome {
        Ok(transfer) => {
            if transport == Protocol::Udp || context.is_some() {
                return None;
            }
            Some(transfer.records.as_slice())
        }
        Err(_) => None,
    }
}

/// The code of a transfer that is not given.
fn transfer_fault(e: &LookupError) -> ResponseCode
    ensures { result ≡ transfer_fault e.now }
{
    match refusal_code(e) {
        Some(code) => code,
        None => negative_code(e),
    }
}

/// What the reply to a transfer says.
pub(crate) fn transfer_contents<'z>(
    request: &Metadata,
    outcome: Result<ZoneTransfer, LookupError>,
) -> ReplyContents<'z>
    ensures { contents_of result ≡ transfer_contents request.now outcome }
{
    match outcome {
        Ok(transfer) => {
            let metadata = authoritative_metadata(request, ResponseCode::NO_ERROR);
            let mut contents = ReplyContents::bare(metadata);
            contents.answers = RecordList::owned(transfer.records);
            contents
        }
        Err(e) => ReplyContents::error(request, transfer_fault(&e)),
    }
}
