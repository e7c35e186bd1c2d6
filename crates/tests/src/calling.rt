//! Calls of the handler begun last, without a server around it.

use crate::asking::{put_records, request};
use crate::fault::Fault;
use crate::keys::error_of;
use crate::output::Output;
use crate::script::Script;
use crate::words::lower_name;
use hickory_base::errors::{DnsError, LookupError};
use hickory_base::server::Request;
use hickory_base::zone_store::{
    AuthLookup, LookupControlFlow, LookupOptions, Nsec3QueryInfo, ZoneHandler, ZoneTransfer,
};
use hickory_wire::{LowerName, RecordType, TSigResponseContext};

/// Prints why there is no answer.
fn put_fault(out: &mut Output, fault: &LookupError) {
    match fault {
        LookupError::Memory => out.is_refused = true,
        LookupError::ResponseCode(code) => out.put_value(code),
        LookupError::Net(DnsError::NoRecords { response_code, .. }) => {
            out.put("no records, ");
            out.put_value(response_code);
        }
        fault => out.put_value(fault),
    }
    out.put("\n");
}

/// Prints what was found: the answers, and then what is beside them; of a whole reply its code and AA first.
fn put_found(out: &mut Output, found: &AuthLookup<'_>) {
    match found {
        AuthLookup::Empty => out.put("empty\n"),
        AuthLookup::Resolved(found) => {
            out.put("resolved\n");
            put_records(found.answers.as_slice(), out);
        }
        AuthLookup::Records {
            answers,
            additionals,
        } => {
            out.put("found\n");
            put_records(answers.as_slice(), out);
            put_records(additionals.as_slice(), out);
        }
        AuthLookup::Whole(reply) => {
            out.put("whole, ");
            out.put_value(&reply.response_code);
            out.put(if reply.authoritative { ", aa\n" } else { "\n" });
            put_records(reply.answers.as_slice(), out);
            put_records(reply.authorities.as_slice(), out);
            put_records(reply.additionals.as_slice(), out);
        }
    }
}

/// Prints an answer, and whether the next handler may look at it.
fn put_flow(out: &mut Output, answer: LookupControlFlow<AuthLookup<'_>>) {
    let outcome = match &answer {
        LookupControlFlow::Skip => None,
        LookupControlFlow::Continue(outcome) => Some(("continue: ", outcome)),
        LookupControlFlow::Break(outcome) => Some(("break: ", outcome)),
    };
    match outcome {
        None => out.put("skip\n"),
        Some((word, outcome)) => {
            out.put(word);
            match outcome {
                Ok(found) => put_found(out, found),
                Err(fault) => put_fault(out, fault),
            }
        }
    }
    drop(answer);
}

/// Prints what a signer has to know, if there is something.
fn put_context(out: &mut Output, context: Option<TSigResponseContext>) {
    if let Some(context) = &context {
        out.put("to be signed by ");
        out.put_value(&context.key_name);
        out.put(", id ");
        out.put_value(&context.request_id);
        out.put(", now ");
        out.put_value(&context.now);
        out.put(", error ");
        out.put_value(&error_of(&context.kind));
        out.put("\n");
    }
    drop(context);
}

/// Prints a transfer.
fn put_transfer(out: &mut Output, outcome: Result<ZoneTransfer, LookupError>) {
    match &outcome {
        Ok(transfer) => {
            out.put("transfer of ");
            out.put_value(&transfer.records.len());
            out.put(" records\n");
            put_records(transfer.records.as_slice(), out);
        }
        Err(fault) => put_fault(out, fault),
    }
    drop(outcome);
}

/// Makes a call with a request, and prints the answer.
fn call_with(
    script: &Script,
    call: &str,
    request: &Request,
    out: &mut Output,
) -> Result<(), Fault> {
    let (alloc, now) = (script.alloc, script.now);
    let options = LookupOptions::from_edns(request.message().edns.as_ref());
    let Some(handler) = script.chain.last() else {
        return Err(Fault::Line("no handler is begun"));
    };
    match call {
        "search" => {
            let (answer, context) = handler.search(alloc, request, options);
            put_flow(out, answer);
            put_context(out, context);
        }
        _ => match handler.zone_transfer(alloc, request, options, now) {
            None => out.put("no transfer\n"),
            Some((outcome, context)) => {
                put_transfer(out, outcome);
                put_context(out, context);
            }
        },
    }
    Ok(())
}

/// Makes a call with a name and a type, and prints the answer. A consult is about an empty answer that is final, and a
/// denial by NSEC3 records has 10 iterations and no salt.
fn call_for(
    script: &Script,
    call: &str,
    name: &LowerName,
    record_type: RecordType,
    options: LookupOptions,
    out: &mut Output,
) -> Result<(), Fault> {
    let alloc = script.alloc;
    let Some(handler) = script.chain.last() else {
        return Err(Fault::Line("no handler is begun"));
    };
    match call {
        "lookup" => put_flow(out, handler.lookup(alloc, name, record_type, None, options)),
        "consult" => {
            let last = LookupControlFlow::Break(Ok(AuthLookup::Empty));
            let (answer, context) = handler.consult(alloc, name, record_type, None, options, last);
            put_flow(out, answer);
            put_context(out, context);
        }
        "nsec" => put_flow(out, handler.nsec_records(alloc, name, options)),
        "nsec3" => {
            let info = Nsec3QueryInfo {
                qname: name,
                qtype: record_type,
                has_wildcard_match: false,
                algorithm: 1,
                salt: &[],
                iterations: 10,
            };
            put_flow(out, handler.nsec3_records(alloc, info, options));
        }
        _ => return Err(Fault::Line("not a call")),
    }
    Ok(())
}

/// Makes the call that words name, and prints the answer.
fn make(script: &mut Script, words: &[&str], out: &mut Output) -> Result<(), Fault> {
    script.close()?;
    match words {
        [call @ ("search" | "transfer"), digits @ ..] => {
            let request = request(script, digits)?;
            let made = call_with(script, call, &request, out);
            drop(request);
            made
        }
        [call, name, kind, options @ ..] => {
            let record_type = kind.parse::<RecordType>()?;
            let dnssec_ok = matches!(options, ["do"]);
            let name = lower_name(script.alloc, name)?;
            call_for(
                script,
                call,
                &name,
                record_type,
                LookupOptions { dnssec_ok },
                out,
            )
        }
        _ => Err(Fault::Line("write it as: call CALL HEX, or call CALL NAME TYPE [do]")),
    }
}

/// Makes the call that words name, and prints the calls of scripted handlers and then the answer. That memory was refused
/// is the answer only if a script has it refused.
pub fn call(script: &mut Script, words: &[&str], out: &mut Output) -> Result<(), Fault> {
    let mut told = Output::new(script.alloc);
    let made = make(script, words, &mut told);
    let calls = script.log.take(script.alloc);
    out.put(calls.lines.as_str());
    match told.into_text() {
        Ok(text) => out.put(text.as_str()),
        Err(_) if calls.wants_memory => out.put("no memory\n"),
        Err(_) => out.is_refused = true,
    }
    made
}
