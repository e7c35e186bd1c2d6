//! What is asked of the server.

use crate::fault::Fault;
use crate::handler::Source;
use crate::messages::put_header;
use crate::output::Output;
use crate::script::Script;
use crate::sink::ScriptedSink;
use crate::words::{lower_name, octets};
use hickory_base::encoding_sink::EncodingSink;
use hickory_base::errors::CatalogError;
use hickory_base::server::{Request, RequestHandler, ResponseInfo};
use hickory_wire::{Edns, Record};
use std::net::{IpAddr, Ipv4Addr, SocketAddr};

/// The request of hex digits, from 127.0.0.1.
pub fn request(script: &Script, digits: &[&str]) -> Result<Request, Fault> {
    let source = SocketAddr::new(IpAddr::V4(Ipv4Addr::LOCALHOST), 53);
    let bytes = octets(script.alloc, digits)?;
    Ok(Request::from_bytes(script.alloc, bytes, source, script.protocol)?)
}

/// Prints the calls of scripted handlers, and then the replies of a sink; before these, if the sink failed, that it did
/// and what the server answered. That the server lacked memory is an answer only if a script has it lack memory.
fn put_outcome(
    script: &Script,
    told: Result<ResponseInfo, CatalogError>,
    sink: &ScriptedSink,
    out: &mut Output,
) {
    let calls = script.log.take(script.alloc);
    out.put(calls.lines.as_str());
    match told {
        Ok(info) if sink.failures > 0 => {
            out.put("sink: failures ");
            out.put_value(&sink.failures);
            out.put(", entries ");
            out.put_value(&sink.kept.replies().len());
            out.put("\nserver: ");
            put_header(info.metadata(), info.counts(), out);
        }
        Ok(_) => {}
        Err(_) if !calls.wants_memory => out.is_refused = true,
        Err(CatalogError::Memory) => out.put("no memory\n"),
        Err(CatalogError::MemoryAfterUpdate) => out.put("no memory, after an update was made\n"),
    }
    if sink.kept.failures() > 0 {
        out.is_refused = true;
    }
    for reply in sink.kept.replies() {
        out.put_hex(reply.as_slice());
    }
}

/// What a request is handed to.
#[derive(Clone, Copy)]
pub enum Asked {
    /// The server.
    Server,
    /// Its lookup, with EDNS that has DO for the reply, or without EDNS.
    Lookup(bool),
    /// Its update, without EDNS for the reply.
    Update,
}

/// Hands a request to what it is for, and prints what comes of it.
fn answer(script: &mut Script, asked: Asked, request: &Request, out: &mut Output) {
    let (alloc, now) = (script.alloc, script.now);
    let mut sink = ScriptedSink {
        sinking: script.sinking,
        kept: EncodingSink::new(alloc, script.protocol),
        failures: 0,
    };
    let mut edns = Edns::new(alloc);
    edns.set_dnssec_ok(true);
    let given = if matches!(asked, Asked::Lookup(true)) {
        Some(&edns)
    } else {
        None
    };
    let told = match asked {
        Asked::Server => script
            .catalog
            .handle_request(alloc, request, now, &mut sink),
        Asked::Lookup(_) => script.catalog.lookup(alloc, request, given, now, &mut sink),
        Asked::Update => script.catalog.update(alloc, request, None, now, &mut sink),
    };
    drop(edns);
    put_outcome(script, told, &sink, out);
    drop(sink);
}

/// Hands the request of hex digits to what it is for, and prints what comes of it.
pub fn ask(
    script: &mut Script,
    asked: Asked,
    digits: &[&str],
    out: &mut Output,
) -> Result<(), Fault> {
    let request = request(script, digits)?;
    answer(script, asked, &request, out);
    drop(request);
    Ok(())
}

/// Prints records, a line for each.
pub fn put_records(records: &[Record], out: &mut Output) {
    for record in records {
        out.put_value(record);
        out.put("\n");
    }
}

/// Prints the zones of the chain that answers for a name.
pub fn show(script: &Script, name: &str, out: &mut Output) -> Result<(), Fault> {
    let name = lower_name(script.alloc, name)?;
    let Some(chain) = script.catalog.find(&name)? else {
        return Err(Fault::Line("no chain answers for this name"));
    };
    for handler in chain {
        let zone = match &handler.source {
            Source::Zone(zone) => zone,
            Source::Updatable(zone) => zone.in_memory(),
            _ => return Err(Fault::Line("not a zone")),
        };
        for (_, set) in zone.records() {
            put_records(set.records(), out);
        }
    }
    Ok(())
}
