//! Callers of the library, one module for each thing that a program does with it. The program runs each and prints what
//! came of it; `docs/library/rattle.md` quotes them.
#![tactic(auto)]

mod blocking;
mod fault;
mod hmac;
mod keys;
mod parked;
mod serving;
mod silent;
mod sizes;
mod updating;
mod zone_file;

use crate::blocking::{blocking, chain_of};
use crate::fault::Fault;
use crate::keys::{OneKey, key};
use crate::parked::Parked;
use crate::serving::{serve_chain, serve_datagram};
use crate::silent::Silent;
use crate::sizes::Sizes;
use crate::updating::change;
use crate::zone_file::closed_zone;
use hickory_server::access::AccessControl;
use hickory_server::proto::{BinDecoder, Header, Items, LowerName, Name, Octets, Protocol};
use hickory_server::server::serve::{Incoming, Outcome};
use hickory_server::server::{NoKeys, Request, RequestHandler};
use hickory_server::store::sqlite::SqliteZoneHandler;
use hickory_server::zone_handler::{AxfrPolicy, Catalog, ReplySigner, ZoneHandler};
use hickory_server::zone_text::read_zone_file;
use std::alloc::{AllocError, Global};
use std::net::{IpAddr, Ipv4Addr, SocketAddr};
use std::process::ExitCode;

/// A zone file.
const ZONE: &str = "\
$TTL 3600
@    SOA ns admin 7 3600 1800 604800 86400
     NS  ns
ns   A   192.0.2.2
www  A   192.0.2.1
";

/// A query for the address of www.example.com.
const QUERY: [u8; 33] =
    *b"\x12\x34\x01\x00\x00\x01\x00\x00\x00\x00\x00\x00\x03www\x07example\x03com\x00\x00\x01\x00\x01";

/// An update of example.com that adds new.example.com, signed by the key key.example. at 1,700,000,000 seconds (RFC
/// 8945 section 5.1).
const UPDATE: [u8; 133] = *b"\
    \x124(\x00\x00\x01\x00\x00\x00\x01\x00\x01\
    \x07example\x03com\x00\x00\x06\x00\x01\
    \x03new\xc0\x0c\x00\x01\x00\x01\x00\x00\x00<\x00\x04\xc0\x00\x02\x07\
    \x03key\x07example\x00\
    \x00\xfa\x00\xff\x00\x00\x00\x00\x00=\x0bhmac-sha256\x00\x00\x00e\
    S\xf1\x00\x01,\x00\x20\
    w\xc1\xcd9\xda\x8a\x5cV\xc6b\x04\x1e\xdbn\xed\xc9\
    y:S1\xbf\xe56]\x00rn\x81v\xe0\xda\xd7\
    \x124\x00\x00\x00\x00\
";

/// The address that messages come from.
fn source() -> SocketAddr {
    SocketAddr::new(IpAddr::V4(Ipv4Addr::LOCALHOST), 53)
}

/// The query as it comes over UDP.
fn query(alloc: Global) -> Result<Incoming, Fault> {
    Ok(Incoming {
        bytes: QUERY.to_vec(alloc)?,
        src: source(),
        protocol: Protocol::Udp,
        now: 0,
    })
}

/// The update as it comes over TCP, at this moment.
fn update(alloc: Global, now: u64) -> Result<Incoming, Fault> {
    Ok(Incoming {
        bytes: UPDATE.to_vec(alloc)?,
        src: source(),
        protocol: Protocol::Tcp,
        now,
    })
}

/// The key of the update, with this secret.
fn update_key(alloc: Global, secret: &[u8; 20]) -> Result<OneKey, Fault> {
    let mut block = [0; 64];
    block[..20].copy_from_slice(secret);
    Ok(key(alloc, "key.example.", block)?)
}

/// The name that all samples serve.
fn origin(alloc: Global) -> Result<Name, Fault> {
    Ok(Name::from_ascii(alloc, "example.com.")?)
}

/// What becomes of a message at a server of one zone with one handler.
fn serve_zone<S: ReplySigner, H: ZoneHandler>(
    alloc: Global,
    signer: S,
    apex: LowerName,
    zone: H,
    message: Incoming,
) -> Result<Outcome, Fault> {
    let mut chain = Vec::new(alloc);
    chain.push(zone)?;
    serve_chain(alloc, signer, apex, chain, message)
}

/// What a zone file's zone answers to the query.
fn of_zone_file(alloc: Global) -> Result<Outcome, Fault> {
    let origin = origin(alloc)?;
    let zone = closed_zone(alloc, &origin, ZONE)?;
    serve_zone(
        alloc,
        NoKeys,
        LowerName::new(alloc, &origin)?,
        zone,
        query(alloc)?,
    )
}

/// What the zone answers behind a list that blocks the name of the query.
fn of_blocked(alloc: Global) -> Result<Outcome, Fault> {
    let origin = origin(alloc)?;
    let list = blocking(alloc, origin.clone()?, "www.example.com\n")?;
    let zone = closed_zone(alloc, &origin, ZONE)?;
    let chain = chain_of(alloc, list, zone)?;
    serve_chain(
        alloc,
        NoKeys,
        LowerName::new(alloc, &origin)?,
        chain,
        query(alloc)?,
    )
}

/// Whether a reply that comes back is dropped by a server without zones.
fn drops_replies(alloc: Global) -> Result<bool, Fault> {
    let mut catalog: Catalog<NoKeys, Silent> = Catalog::new(alloc, NoKeys);
    let mut message = query(alloc)?;
    if let Some(flags) = message.bytes.get_mut(2) {
        *flags = 0x81;
    }
    let served = serve_datagram(alloc, &AccessControl::new(alloc), &mut catalog, message)?;
    let is_dropped = served.is_none();
    drop(served);
    Ok(is_dropped)
}

/// What a parked zone answers to the query.
fn of_parked(alloc: Global) -> Result<Outcome, Fault> {
    let origin = origin(alloc)?;
    let zone = Parked {
        origin: LowerName::new(alloc, &origin)?,
        address: Ipv4Addr::new(192, 0, 2, 80),
    };
    serve_zone(
        alloc,
        NoKeys,
        LowerName::new(alloc, &origin)?,
        zone,
        query(alloc)?,
    )
}

/// What the update is answered where the key has this secret, at this moment.
fn of_update(alloc: Global, secret: &[u8; 20], now: u64) -> Result<Outcome, Fault> {
    let origin = origin(alloc)?;
    let verifier = update_key(alloc, secret)?;
    let zone = closed_zone(alloc, &origin, ZONE)?;
    let handler = SqliteZoneHandler::new(zone, AxfrPolicy::Deny, true, verifier);
    let signer = update_key(alloc, secret)?;
    let origin = LowerName::new(alloc, &origin)?;
    serve_zone(alloc, signer, origin, handler, update(alloc, now)?)
}

/// What a handler without an answer leads to.
fn of_silent(alloc: Global) -> Result<Outcome, Fault> {
    let origin = origin(alloc)?;
    let zone = Silent {
        origin: LowerName::new(alloc, &origin)?,
    };
    serve_zone(
        alloc,
        NoKeys,
        LowerName::new(alloc, &origin)?,
        zone,
        query(alloc)?,
    )
}

/// What a reply says in its header.
fn header(reply: &Octets) -> Option<Header> {
    BinDecoder::new(reply.as_slice()).read_header().ok()
}

/// A line for what became of a message: the code, the number of answers and the size of its first reply.
fn line(alloc: Global, name: &str, outcome: &Outcome) -> Result<String, Fault> {
    let Outcome::Replies(replies) = outcome else {
        return Ok(format!(in alloc; "{name}: no reply")?);
    };
    let Some(reply) = replies.as_slice().first() else {
        return Ok(format!(in alloc; "{name}: no reply")?);
    };
    let Some(header) = header(reply) else {
        return Ok(format!(in alloc; "{name}: no header")?);
    };
    let code = header.metadata.response_code;
    let answers = header.counts.answers;
    let size = reply.len();
    Ok(format!(in alloc; "{name}: {code}, {answers} answers, {size} bytes")?)
}

/// The sizes of the replies of a server without zones.
fn reply_sizes(alloc: Global) -> Result<Items<usize>, Fault> {
    let mut catalog: Catalog<NoKeys, Silent> = Catalog::new(alloc, NoKeys);
    let mut sink = Sizes {
        sizes: Items::new(alloc),
        failures: 0,
    };
    let bytes = QUERY.to_vec(alloc)?;
    let Ok(request) = Request::from_bytes(alloc, bytes, source(), Protocol::Tcp) else {
        return Err(Fault::Memory(AllocError));
    };
    match catalog.handle_request(alloc, &request, 0, &mut sink) {
        Ok(_) => Ok(sink.sizes),
        Err(_) => Err(Fault::Memory(AllocError)),
    }
}

/// The zone of the file, as one that can be changed.
fn updatable(alloc: Global, origin: &Name) -> Result<SqliteZoneHandler<NoKeys>, Fault> {
    let zone = closed_zone(alloc, origin, ZONE)?;
    Ok(SqliteZoneHandler::new(zone, AxfrPolicy::Deny, false, NoKeys))
}

/// The serial after an address was added to the zone of the file.
fn changed(alloc: Global) -> Result<u32, Fault> {
    let origin = origin(alloc)?;
    let added = read_zone_file(alloc, "new 60 A 192.0.2.7", &origin)?;
    let mut zone = updatable(alloc, &origin)?;
    match change(alloc, &mut zone, added.as_slice()) {
        Ok(_) => Ok(zone.in_memory().serial()),
        Err(_) => Err(Fault::Memory(AllocError)),
    }
}

/// A line for the update, one where the key has another secret, and one where it comes too late.
fn update_lines(alloc: Global) -> Result<String, Fault> {
    let now = 1_700_000_000;
    let good = line(
        alloc,
        "update",
        &of_update(alloc, b"a secret of a sample", now)?,
    )?;
    let bad = line(
        alloc,
        "bad",
        &of_update(alloc, b"a secret of another.", now)?,
    )?;
    let late = line(
        alloc,
        "late",
        &of_update(alloc, b"a secret of a sample", now + 301)?,
    )?;
    Ok(format!(in alloc; "{good}\n{bad}\n{late}")?)
}

/// All lines.
fn lines(alloc: Global) -> Result<String, Fault> {
    let zone_file = line(alloc, "zone file", &of_zone_file(alloc)?)?;
    let parked = line(alloc, "parked", &of_parked(alloc)?)?;
    let silent = line(alloc, "silent", &of_silent(alloc)?)?;
    let blocked = line(alloc, "blocked", &of_blocked(alloc)?)?;
    let sizes = reply_sizes(alloc)?;
    let size = sizes.as_slice().first().copied().unwrap_or(0);
    let serial = changed(alloc)?;
    let is_dropped = drops_replies(alloc)?;
    let updates = update_lines(alloc)?;
    Ok(format!(in alloc;
        "{zone_file}\n{parked}\n{silent}\n{blocked}\nsizes: {size}\nserial: {serial}\ndropped: {is_dropped}\n{updates}"
    )?)
}

fn main(rt: HostRuntime) -> ExitCode {
    let told = match lines(rt.alloc()) {
        Ok(lines) => println!(rt; "{lines}"),
        Err(fault) => eprintln!(rt; "calling: {fault}"),
    };
    if told.is_ok() {
        ExitCode::SUCCESS
    } else {
        ExitCode::FAILURE
    }
}
