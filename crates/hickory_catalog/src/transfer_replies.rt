//! A transfer in as many replies as it takes (RFC 5936 section 2.2).

ghost use Rattle.std.specs.Prelude.{List, map};
ghost use Rattle.std.specs.Option.{option_copied};
ghost use Rattle.wire_messages.specs.serialize.writing.Reply.{Reply};
ghost use Rattle.wire_messages.specs.declared.rr.rdata.RData.{RData};
ghost use Rattle.wire_messages.specs.declared.rr.record.Record.{Record};
ghost use Rattle.hickory_base.specs.responses.Responses.{header_of};
ghost use Rattle.hickory_catalog.specs.representation.Runs.{IsRoom, IsRunLength};
ghost use Rattle.hickory_catalog.specs.replies.Sending.{SendsInOrder};
ghost use Rattle.hickory_catalog.specs.transfers.Transfers.{AreRuns, AreTransferReplies, size_without_answers, message_of_transfer};

use crate::edns::set_high_code;
use crate::sending::send_records;
use hickory_base::message_request::MessageRequest;
use hickory_base::server::{ResponseHandler, ResponseInfo};
use hickory_wire::{Edns, Record, ResponseCode};
use std::alloc::Global;

// The size of a message behind a length of 16 bits (RFC 1035 section 4.2.2).
const LARGEST_MESSAGE: usize = 65535;

/// How many bytes each message of a transfer has for its answers, 0 where header, questions and OPT record take more
/// than there is.
fn room_for_answers(request: &MessageRequest, edns: Option<&Edns>) -> usize
    ensures { IsRoom (size_without_answers request.now (option_copied edns.entry)) result }
{
    let front = 12 + request.queries.as_bytes().len();
    if front > LARGEST_MESSAGE {
        return 0;
    }
    let room = LARGEST_MESSAGE - front;
    match edns {
        None => room,
        Some(edns) => edns.room_behind(room).unwrap_or(0),
    }
}

/// How many records the next message takes.
fn run_len(room: usize, records: &[Record]) -> usize
    ensures { IsRunLength room records.now result }
{
    let mut left = room;
    for place in 0..records.len() {
        match records[place].room_behind(left) {
            Some(behind) => left = behind,
            None => return place.max(1),
        }
    }
    records.len()
}

/// Hands over one reply for each run of the records, one after the other, until the sink fails.
fn send_runs<R: ResponseHandler>(
    sink: &mut R,
    alloc: Global,
    request: &MessageRequest,
    edns: Option<&Edns>,
    records: &[Record],
) -> ResponseInfo
    ensures { (runs : List (List (Record RData))) ×
        AreRuns (size_without_answers request.now (option_copied edns.entry)) records.now runs ×
        SendsInOrder R.ResponseHandler request.now.metadata sink.old sink.new
        (map (message_of_transfer request.now (option_copied edns.entry)) runs) (header_of result) }
{
    let room = room_for_answers(request, edns);
    let mut rest = records;
    let mut len = run_len(room, rest);
    while len < rest.len() {
        let (run, behind) = rest.split_at(len);
        if let Err(info) = send_records(sink, alloc, request, edns, run) {
            return info;
        }
        rest = behind;
        len = run_len(room, rest);
    }
    match send_records(sink, alloc, request, edns, rest) {
        Ok(info) => info,
        Err(info) => info,
    }
}

/// Hands over the replies of a transfer of these records, with this EDNS, one after the other, until the sink fails.
/// What is told is of the last that was handed over. Only the sink takes memory.
pub(crate) fn send_transfer<R: ResponseHandler>(
    sink: &mut R,
    alloc: Global,
    request: &MessageRequest,
    edns: &mut Option<Edns>,
    records: &[Record],
) -> ResponseInfo
    ensures { (replies : List Reply) × AreTransferReplies request.now edns.old records.now replies ×
        SendsInOrder R.ResponseHandler request.now.metadata sink.old sink.new replies (header_of result) }
{
    set_high_code(ResponseCode::NO_ERROR, edns);
    send_runs(sink, alloc, request, edns.as_ref(), records)
}
