//! Messages that are read, and written again.

use crate::fault::Fault;
use crate::output::Output;
use crate::script::Script;
use crate::words::octets;
use hickory_base::server::Request;
use hickory_wire::{
    BinDecoder, BinEncoder, DecodeError, HeaderCounts, Message, Metadata, ProtoError, Record,
    ReplyParts, emit_message_parts, encode_message_parts,
};
use std::alloc::Global;
use std::mem;
use std::net::{IpAddr, Ipv4Addr, SocketAddr};

/// Prints a header: what identifies it, its code, its flags and its counts.
pub fn put_header(metadata: &Metadata, counts: HeaderCounts, out: &mut Output) {
    out.put_value(&metadata.op_code);
    out.put(", ");
    out.put_value(&metadata.response_code);
    out.put(", id ");
    out.put_value(&metadata.id);
    let flags = [
        (metadata.authoritative, " aa"),
        (metadata.truncation, " tc"),
        (metadata.recursion_desired, " rd"),
        (metadata.recursion_available, " ra"),
        (metadata.authentic_data, " ad"),
        (metadata.checking_disabled, " cd"),
    ];
    for (is_set, word) in flags {
        out.put(if is_set { word } else { "" });
    }
    for count in [
        counts.queries,
        counts.answers,
        counts.authorities,
        counts.additionals,
    ] {
        out.put(", ");
        out.put_value(&count);
    }
    out.put("\n");
}

/// Prints the bytes of a message, or why there are none.
fn put_written(written: Result<Vec<u8>, ProtoError>, out: &mut Output) {
    match written {
        Ok(bytes) => out.put_hex(bytes.as_slice()),
        Err(ProtoError::Memory | ProtoError::Decode(DecodeError::Memory)) => out.is_refused = true,
        Err(ProtoError::Decode(e)) => out.put_fault(&e),
        Err(e) => out.put_fault(&e),
    }
}

/// The bytes of a request that is written anew.
fn emitted(alloc: Global, request: &Request) -> Result<Vec<u8>, ProtoError> {
    let mut bytes = Vec::new(alloc);
    let mut encoder = BinEncoder::new(alloc, &mut bytes);
    request.message().emit(&mut encoder)?;
    Ok(bytes)
}

/// The request of some bytes, read in the place of the one before if there is one.
fn read(script: &Script, before: Option<Request>, bytes: Vec<u8>) -> Result<Request, ProtoError> {
    let source = SocketAddr::new(IpAddr::V4(Ipv4Addr::LOCALHOST), 53);
    let Some(mut request) = before else {
        return Request::from_bytes(script.alloc, bytes, source, script.protocol);
    };
    match request.read_in_place(script.alloc, bytes.as_slice(), source, script.protocol) {
        Ok(()) => Ok(request),
        Err(e) => {
            drop(request);
            Err(e)
        }
    }
}

/// Prints what the message of hex digits is written as anew, or its first fault. It is read in the place of the message
/// that was read before.
pub fn message(script: &mut Script, digits: &[&str], out: &mut Output) -> Result<(), Fault> {
    let bytes = octets(script.alloc, digits)?;
    let before = mem::replace(&mut script.request, None);
    match read(script, before, bytes) {
        Ok(request) => {
            put_written(emitted(script.alloc, &request), out);
            script.request = Some(request);
        }
        Err(e) => put_written(Err(e), out),
    }
    Ok(())
}

/// The bytes of the questions of a message, and how many questions they hold.
fn question_bytes<'m>(alloc: Global, bytes: &'m [u8]) -> Result<(&'m [u8], u16), DecodeError> {
    let mut decoder = BinDecoder::new(bytes);
    let count = decoder.read_header()?.counts.queries;
    let start = decoder.index();
    drop(decoder.read_queries(alloc, count)?);
    Ok((decoder.slice_from(start)?, count))
}

/// A message that was read, written again within a limit after these bytes of its questions; if it is encoded, a server
/// failure takes its place if it has no form.
fn rewritten(
    alloc: Global,
    message: &Message,
    (question, question_count): (&[u8], u16),
    limit: u16,
    is_encoded: bool,
) -> Result<Vec<u8>, ProtoError> {
    let nothing: &[Record] = &[];
    let parts = ReplyParts {
        metadata: message.metadata,
        question,
        question_count,
        edns: message.edns.as_ref(),
        answers: message.answers.as_slice().iter(),
        authorities: message.authorities.as_slice().iter(),
        soa: nothing.iter(),
        additionals: message.additionals.as_slice().iter(),
        signature: message.signature.as_ref().map(|signature| signature.get()),
    };
    if is_encoded {
        let (_, bytes) = encode_message_parts(alloc, limit, parts)?;
        return Ok(bytes);
    }
    let mut bytes = Vec::new(alloc);
    let mut encoder = BinEncoder::new(alloc, &mut bytes);
    encoder.set_max_size(limit);
    emit_message_parts(&mut encoder, parts)?;
    Ok(bytes)
}

/// Prints what the message of hex digits is written as within a limit, or its first fault.
pub fn rewrite(
    script: &Script,
    limit: &str,
    digits: &[&str],
    is_encoded: bool,
    out: &mut Output,
) -> Result<(), Fault> {
    let alloc = script.alloc;
    let limit = limit.parse::<u16>()?;
    let bytes = octets(alloc, digits)?;
    let question = match question_bytes(alloc, bytes.as_slice()) {
        Ok(question) => question,
        Err(e) => {
            put_written(Err(ProtoError::Decode(e)), out);
            return Ok(());
        }
    };
    match Message::read(alloc, bytes.as_slice()) {
        Ok(message) => {
            put_written(rewritten(alloc, &message, question, limit, is_encoded), out);
            drop(message);
        }
        Err(e) => put_written(Err(ProtoError::Decode(e)), out),
    }
    Ok(())
}
